// A turn that goes round among n, numbered from 1. Definitions and laws alone; there is no code here.
#![tactic(auto)]
