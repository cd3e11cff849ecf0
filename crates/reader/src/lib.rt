// The reader: an answer on a line is taken and its values handed out, or it is turned away by the first row of document 01 that it breaks.
#![tactic(auto)]

pub mod read;
