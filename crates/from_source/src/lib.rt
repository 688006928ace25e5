// A source text in one call: its token list, which stands on the call's own stack, is read or listed (document 02,
// card 1).
#![tactic(auto)]

pub mod listing;
pub mod report;
pub mod roles;
