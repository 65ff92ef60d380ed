// Preemption: how many ticks the fire service waits for a ramp that is dark or green, at the most.
// Definitions and laws alone; `tick` promises it.
#![tactic(auto)]
