// No code: what the calls' promises amount to. Each fixes its outcome, the figures of docs/RULES.md
// come out, and wrong collectors are ruled out.

#![tactic(auto)]
