// No code: the theorems over the whole, and document 01's starred cases. See specs/ and proofs/.
#![tactic(auto)]
