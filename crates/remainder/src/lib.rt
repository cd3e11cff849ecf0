// Remainders by shift register, at any width and in either bit order, and bits turned over: the laws that the PEC's distance rests on.
// Laws only: there is no code here.
#![tactic(auto)]
