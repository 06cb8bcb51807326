// Simulated runs of a table (document 02, wish 10): the definition and its laws; no function.
#![tactic(auto)]
