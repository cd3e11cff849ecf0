// What every crate may rest on: sweeps over numbers below a bound, laws of lists that the library lacks, and what it means that a contract
// leaves nothing open. Laws only: there is no code here.
#![tactic(auto)]
