// What stands twice: a key is a text and a number, and a table of keys tells of each whether it was seen.
#![tactic(auto)]

pub mod key;
pub mod seen;
