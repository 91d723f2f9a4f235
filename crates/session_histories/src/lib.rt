// No function: every history of the calls on lent bytes is one of the table without bytes, so what is claimed of those holds of these.
#![tactic(auto)]
