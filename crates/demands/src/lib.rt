// The demands on the public functions, stated in one place; there is no code here.
#![tactic(auto)]
