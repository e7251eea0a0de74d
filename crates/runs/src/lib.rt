// A run: a step that changes a state again and again, and what is seen of the state before each step. A render, a walk
// through a score, an envelope and a phase are runs; the laws of every run (01: "cut anywhere") are proved here once.
// No function.
#![tactic(auto)]
