// What was ordered of the calls together, as theorems over the definitions that their contracts cite; specs/ has the
// claims. Each refusal is given exactly when its row of 01's table, or of 02's, holds first, and leaves all as it came
// (demand 1); a shelf that a render left is never refused; parts continued one after the other are one render (01,
// "Making sample n"); a re-render of what a render of the old score left is a render of the new score from the start of
// its section on, wherever it stops (demand 3; 02, R-12); any number of edits lose nothing; a page of edits leaves what
// its edits leave one at a time (02, R-6); a summary stays right (02, R-3); the tremolo's LFO is the ported block, and
// depth 0 is no tremolo (02, R-7); no phase is negative where it is reduced (02, R-13); how a release is written is not
// heard (02, R-4); a key is struck or joined (02, R-9). No function. The theorems have a crate of their own so that
// trying a wrong program of a call does not prove them again. `ffi_demands` has the theorems of the calls that C makes.
#![tactic(auto)]
