// What a word loses. This crate has no code: its specs/ state what an encoder keeps of an instant and what it drops, for
// each of the sixteen layouts, over the definitions that the registry's code is proved to meet, and its proofs/ prove it.
#![tactic(auto)]
