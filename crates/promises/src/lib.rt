// What follows from the definitions: one result for every input, and demands 2 and 3. Theorems in proofs/; there is no code here.
#![tactic(auto)]
