// The twin: a stepped model of a chain of devices (document 01, "The twin").
#![tactic(auto)]

pub mod step;
