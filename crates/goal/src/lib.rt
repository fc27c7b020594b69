// What the search must answer: definitions and laws, no function.
#![tactic(auto)]
