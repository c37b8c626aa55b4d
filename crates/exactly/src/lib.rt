// What a plan is accepted for, in both directions: the listed conditions, the text of a plan, and the block of one. Conditions in specs/, proofs in proofs/. No code.
#![tactic(auto)]
