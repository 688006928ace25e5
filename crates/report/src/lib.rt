// What the programs print, written into a lent output.
#![tactic(auto)]

pub mod check;
pub mod roles;
