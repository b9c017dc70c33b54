// No code: round trips between plain texts, what they say, and sheets. See specs/ and proofs/.
#![tactic(auto)]
