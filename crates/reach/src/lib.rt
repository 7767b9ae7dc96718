// No code: what slots reach, as the numbering finds it, and what Load's answers mean.

#![tactic(auto)]
