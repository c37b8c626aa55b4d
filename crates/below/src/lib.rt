// Search, sums and maxima over the numbers below n: definitions in specs/, their laws in proofs/. No code.
#![tactic(auto)]
