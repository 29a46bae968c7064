// The mathematics that the product stands on: definitions in specs/, laws in proofs/. There is no code here.
#![tactic(auto)]
