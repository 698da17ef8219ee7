// An edition of the market's lists: which suppliers, settlement configurations and combinations there are.
#![tactic(auto)]

mod ascents;
pub mod checked;
pub mod edition;
pub mod faults;
mod keys;
pub mod lawful;
mod rules;
