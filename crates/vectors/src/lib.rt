// Lists of recorded answers: what a replay parses, compares and counts. A line is a letter, then hexadecimal numbers with a space
// before each, then a colon and bytes where the case has any.
#![tactic(auto)]

pub mod asked;
pub mod numbers;
pub mod report;
pub mod same;
pub mod text;
