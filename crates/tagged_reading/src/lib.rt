// What is read of a tagged attribute, and its grammar: definitions in specs/ and laws on them in proofs/, with no
// code. The crate `tagged_attribute` meets them.
#![tactic(auto)]
