// Greatest simulations: the definitions are in specs/, their laws in proofs/. There is no code.
#![tactic(auto)]
