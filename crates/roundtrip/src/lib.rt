// An extract is itself a pack, and reading it back gives the kept part it was made from: no code, the theorems are in proofs/.
#![tactic(auto)]
