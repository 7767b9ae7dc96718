// No code: words for definitions by tests, and the rules by which proofs read them.

#![tactic(auto)]
