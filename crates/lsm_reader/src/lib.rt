// Opening a file.
#![tactic(auto)]

mod chain;
pub mod header;
pub mod open;
