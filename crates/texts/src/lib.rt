// What a plain text is, what it says, and how far bytes begin one: definitions and laws, no code.
#![tactic(auto)]
