// The statements that a reader looks for first, in specs/; their proofs in proofs/. No code.
#![tactic(auto)]
