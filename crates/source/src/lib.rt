// A source text read as a token list (document 02, card 1).
#![tactic(auto)]

pub mod brackets;
pub mod bytes;
pub mod comment;
pub mod number;
pub mod piece;
pub mod places;
pub mod quoted;
pub mod report;
pub mod tokens;
