// No code: what the calls of the schedule program amount to. However the input is cut into blocks,
// what they print is its transcript, and each call's promise fixes its outcome.

#![tactic(auto)]
