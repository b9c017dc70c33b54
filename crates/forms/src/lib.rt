// No code: forms of the script, that SMT-LIB reads them as it should, and what they mean. See specs/ and proofs/.
#![tactic(auto)]
