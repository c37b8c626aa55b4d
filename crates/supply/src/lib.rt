// Budgets, periods and levels with no task and no resource: what is assumed and what is promised in specs/, the proof in proofs/. No code.
#![tactic(auto)]
