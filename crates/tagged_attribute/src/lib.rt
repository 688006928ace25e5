// Tagged attributes (virtue's src/utils.rs), over token lists: `utils::parse_tagged_attribute` reads the entries of
// `[prefix(..)]` into role bytes, and `listing::report_tagged` writes a line for each.
#![tactic(auto)]

pub mod entry;
pub mod listing;
pub mod role;
pub mod utils;
