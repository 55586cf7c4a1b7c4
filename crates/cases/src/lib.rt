// The cases that the scope paper marks P ("Both sides of each edge"): one record in specs/, one value in proofs/. No code.
#![tactic(auto)]
