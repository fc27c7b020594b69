// What the search knows of a region of placements: definitions and laws, no function.
#![tactic(auto)]
