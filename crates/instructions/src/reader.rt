// A place in a file, from which commands are read one by one.
mod steps;

ghost use Rattle.std.specs.Prelude.{◌≤◌, length};

// The bytes of a file, and how many of them have been read.
#[derive(Clone, Copy)]
pub(crate) struct Reader<'a> {
    pub(crate) bytes: &'a [u8],
    pub(crate) at: usize,
    ghost inside: { at ≤ length bytes.now },
}
