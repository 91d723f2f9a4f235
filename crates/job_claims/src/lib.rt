// No function: what the answers of the job reader mean, as theorems over the words that its contracts cite.
#![tactic(auto)]
