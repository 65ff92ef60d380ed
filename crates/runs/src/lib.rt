// Lists of calls, one after the other, and what happens in time. Definitions and laws alone; there is
// no code here.
#![tactic(auto)]
