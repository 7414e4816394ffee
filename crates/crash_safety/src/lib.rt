// Crash safety: the claim stands in specs/Statement.antt, its proof in proofs/. No code runs here.
#![tactic(auto)]
