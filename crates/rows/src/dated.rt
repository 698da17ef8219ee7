// Rows that begin on a day, and rows that also end on one.
ghost use Rattle.std.specs.Prelude.{◌≡◌, ℕ};
ghost use Rattle.fields.specs.Days.{last_day};

// A row that is in effect from its start on, until a later row of its kind starts.
pub trait Dated {
    // the first day of the row
    ghost start_of: { Self → ℕ };

    // the last day on which the row can be in effect: 60,000 unless the row says its end
    ghost last_of: { Self → ℕ };

    fn start(&self) -> u16
        ensures { result ≡ start_of self.now };

    fn last(&self) -> u16
        ensures { result ≡ last_of self.now };
}

// A row that also has an end, kept as it was sent: 0 means no end.
pub trait Span: Dated {
    ghost end_of: { Self → ℕ };

    fn end(&self) -> u16
        ensures { result ≡ end_of self.now };

    ghost ends: { (row : Self) → Self.Dated.last_of row ≡ last_day (end_of row) };
}
