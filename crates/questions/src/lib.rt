// A question to the chain: what it asks, and the bytes and lengths of its command and its answer (document 01, "Commands and answers" and
// row 1 of "Turned away").
#![tactic(auto)]

pub mod question;
