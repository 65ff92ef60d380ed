// The bus bypass: how many ticks a bus waits for its lane to turn green, at the most; and the request
// in its own words, of one tick. Definitions and laws alone; `tick` promises both.
#![tactic(auto)]
