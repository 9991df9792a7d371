// The two lists that answers carry, the changes and the states in depth-first order: the definitions are in specs/, their laws in proofs/. There is no code.
#![tactic(auto)]
