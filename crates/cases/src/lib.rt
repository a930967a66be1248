// The house cases of document 01, and rows for further sentences: the table in specs/, proved by computation in
// proofs/.
#![tactic(auto)]
