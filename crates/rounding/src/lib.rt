// A quotient rounded up. A definition and its laws alone; there is no code here.
#![tactic(auto)]
