// No code: the graph file as definitions, the outcomes of reading and writing it, and what is proved of them.
#![tactic(auto)]
