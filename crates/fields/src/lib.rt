// What the fields of rows hold: settlement days, letters, the numbers of suppliers and the like,
// consumption sets and their regimes.
#![tactic(auto)]

pub mod ascent;
pub mod consumption;
pub mod days;
pub mod letters;
pub mod regimes;
pub mod states;
