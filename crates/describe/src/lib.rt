// What a declaration says, as texts: a variant's value, and the listing with the variants' numbers.
#![tactic(auto)]

mod faults;
mod lines;
pub mod listing;
mod numbers;
pub mod value;
