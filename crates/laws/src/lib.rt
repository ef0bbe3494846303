// The lemmas that more than one crate cites; there is no code here.
#![tactic(auto)]
