// 01's worked examples (a) to (m), under "Marks on both sides", as one table with a single claim over the definitions
// that the contracts cite. They are in a crate of their own because (i) and (j) take long, and a wrong program of a
// call would compute them again. No function.
#![tactic(auto)]
