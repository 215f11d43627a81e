// The plain types of the LSM reader, and the checks that need no file: sizes, rectangles, products that may overflow.
// The definitions that every contract of the reader cites are in specs/.
#![tactic(auto)]

pub mod checked;
pub mod error;
pub mod guard;
pub mod types;
