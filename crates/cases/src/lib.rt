// The worked cases: the rows are in specs/, one fact over all of them in proofs/. There is no code.
#![tactic(auto)]
