// Document 01's cases C1 to C13 as one table, computed from what the entry points promise. No code.
#![tactic(auto)]
