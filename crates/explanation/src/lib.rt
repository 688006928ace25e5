// A list explained: each row with its role in words, or what a refusal means and the rows near its place.
#![tactic(auto)]

pub mod explain;
pub mod row;
pub mod rows;
pub mod words;
