// Texts, numbers and refusals, written into a lent output; and what a function answers that does so.
#![tactic(auto)]

pub mod put;
pub mod writer;
pub mod written;
