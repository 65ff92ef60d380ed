// A group's timings by name, in the site file's order; times in ticks unless said.
#![tactic(auto)]

#[derive(Clone, Copy)]
pub struct Timings {
    // how many metered lanes
    pub lanes: u16,
    // service mode: 0 mutual exclusion, 1 fractional offset
    pub mode: u16,
    // vehicles per green
    pub vehicles: u16,
    pub mingreen: u16,
    pub maxgreen: u16,
    pub yellow: u16,
    pub minred: u16,
    // startup warning, green, yellow and red
    pub warning: u16,
    pub startgreen: u16,
    pub startyellow: u16,
    pub startred: u16,
    // shutdown red
    pub shutdown: u16,
    // maximum pre-metering green, in minutes
    pub maxpregreen: u16,
    // minimum pre-metering green
    pub minpregreen: u16,
    // how many mainline lanes
    pub mainline: u16,
    // the lane of the bus bypass, from 1; 0 for none
    pub priority: u16,
    // after how many seconds a bypass ends; 0 for never
    pub timeout: u16,
}

// What a state and a tick's samples must fit: how many metered and mainline lanes there are, and the
// lane of the bus bypass, 0 for none.
#[derive(Clone, Copy)]
pub struct Shape {
    pub lanes: u16,
    pub mainline: u16,
    pub priority: u16,
}
