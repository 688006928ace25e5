// The parser of virtue 0.0.19, its modules parse/*.rs, over token lists. `item::new` is `Parse::new`: it
// reads a declaration into role bytes, or refuses.
#![tactic(auto)]

pub mod attributes;
pub mod body;
pub mod data_type;
pub mod fields;
pub mod generics;
pub mod item;
mod parts;
pub mod role;
pub mod runs;
pub mod utils;
pub mod variants;
pub mod visibility;
