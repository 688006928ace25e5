// What the writers of generics write, and how it reads back: definitions in specs/ and laws on them in proofs/, with no
// code. The crate `generate` meets them.
#![tactic(auto)]
