// The meaning of document 01: definitions and laws, in specs/. There is no code here.
#![tactic(auto)]
