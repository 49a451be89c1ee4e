// Every public call's number is the lowest that applies: the table of the calls and the theorem, in specs/ and
// proofs/. There is no code here.
#![tactic(auto)]
