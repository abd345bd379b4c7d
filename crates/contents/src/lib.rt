// What a fragment store means, and how the memory of a grid and of a pool gives that meaning. Definitions stand in specs/, lemmas in proofs/.
#![tactic(auto)]
