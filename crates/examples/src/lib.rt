// No code: specs/ holds document 01's examples, proofs/ the theorem that they hold.
#![tactic(auto)]
