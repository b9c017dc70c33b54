// No code: SMT-LIB 2.6's reading of a script's bytes, as definitions, and its laws. See specs/ and proofs/.
#![tactic(auto)]
