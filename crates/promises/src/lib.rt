// No code: theorems over the finished contracts of the crates below, in proofs/.
#![tactic(auto)]
