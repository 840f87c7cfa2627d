// No code: Misra-Gries edge colouring as definitions, and what is proved of them.
#![tactic(auto)]
