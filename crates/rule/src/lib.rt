// Nothing runs here: specs/ has the rule of coding and proofs/ its laws, which the crates above cite.
#![tactic(auto)]
