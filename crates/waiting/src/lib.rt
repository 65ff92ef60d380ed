// The waiting bound: how many ticks a waiting lane is passed over at the most. Definitions and laws
// alone; `tick` promises it.
#![tactic(auto)]
