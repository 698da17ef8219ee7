// What holds the folders of a book: the rows that sources have sent of each metering system.
#![tactic(auto)]

pub mod pairs;
pub mod registers;
pub mod systems;
pub mod walking;
