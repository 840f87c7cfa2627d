// No code: the line list and an edge's neighbours as definitions, and what is proved of them.
#![tactic(auto)]
