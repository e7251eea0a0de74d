// The demands at the C boundary: what was ordered of the calls together, proved of `ffi`'s calls, whose states are
// thirteen words and whose answers are one word. Theorems over the definitions that `ffi`'s contracts cite; specs/ has
// the claims. Parts continued in words, one after the other from the words that `gav_fresh` leaves, are one
// `gav_render` of the last score; over what `gav_render` of the old score left, `gav_rerender` leaves from the start of
// its section on what `gav_render` of the new score leaves, wherever it stops; after any number of edits output, shelf
// and summary are those of one `gav_render`; one `gav_edit` leaves what its edits leave one at a time; and a summary
// stays right. The theorems ask of the answers only what a host sees: each word's number is 0. No function. `demands`
// has the theorems of states by value, on which these rest.
#![tactic(auto)]
