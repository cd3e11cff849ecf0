// What acceptance means: an accepted line is the line of a right answer, and every right answer's line is accepted. Rests on the reader's
// published definitions. Laws only: there is no code here.
#![tactic(auto)]
