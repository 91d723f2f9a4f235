// What a statement means in document 01's terms: no function.
#![tactic(auto)]
