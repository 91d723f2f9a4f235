// No function: the demands as theorems, and the table of proved examples.
#![tactic(auto)]
