// Token lists: rows, the list check, and the cursor that later parts read with.
#![tactic(auto)]

pub mod buffer;
pub mod check;
pub mod layout;
pub mod reader;
pub mod refusal;
pub mod row;
pub mod stream;
pub mod text;
