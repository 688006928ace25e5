// virtue's src/generate, as far as the writers of generics need it.
#![tactic(auto)]

pub mod generics;
pub mod names;
pub mod parameter;
pub mod stream_builder;
