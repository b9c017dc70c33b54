// No code: definitions and laws of lists, and of things that stand at numbered places. See specs/ and proofs/.
#![tactic(auto)]
