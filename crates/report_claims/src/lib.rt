// No function: reading and writing reports as theorems.
#![tactic(auto)]
