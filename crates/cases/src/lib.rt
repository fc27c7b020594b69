// The starred cases of document 01: definitions and laws, no function.
#![tactic(auto)]
