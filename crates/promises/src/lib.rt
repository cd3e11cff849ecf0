// What the customer is promised, at the top of the tree: each demand one statement in specs/ and one theorem of the same name in proofs/.
// Theorems only: there is no code here.
#![tactic(auto)]
