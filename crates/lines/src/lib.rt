// A line: many characters in lent words, and the bytes that they carry (document 01, "The line").
#![tactic(auto)]

pub mod read;
