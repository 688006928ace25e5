// What the reader of declarations answers, and the role grammar: definitions in specs/ and laws on them in proofs/,
// with no code. The crate `parse` meets them.
#![tactic(auto)]
