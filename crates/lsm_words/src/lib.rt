// The words of the C interface: a calibration and a description as words, both ways, and the answers. Words are only ever added at
// the end. What goes to words or comes from them is a function of this crate: an impl of `From` or `TryFrom` would have to stand with the
// types, which know nothing of the words.
#![tactic(auto)]

pub mod answers;
pub mod description;
mod sizes;
