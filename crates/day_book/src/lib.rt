// The day book, lists of calls, and the theorem about every list: definitions and proofs, no code.
#![tactic(auto)]
