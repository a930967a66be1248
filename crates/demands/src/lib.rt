// Demands 1 and 3 of document 01, waiting, lists, and what the program prints: the statements in specs/, their proofs
// in proofs/.
#![tactic(auto)]
