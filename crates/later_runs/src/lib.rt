// Runs beyond the table's own horizon (document 02, wish 14): what they have written read back, and the rows that they go by. specs/ has the statements,
// proofs/ the laws; no functions.
#![tactic(auto)]
