// One device of the chain: it takes the line as it stands and hands it on (document 01, "The twin").
#![tactic(auto)]

pub mod pass;
