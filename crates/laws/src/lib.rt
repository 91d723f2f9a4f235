// No function: laws about tests and choices, in proofs/, that every other crate's proofs lean on.
#![tactic(auto)]
