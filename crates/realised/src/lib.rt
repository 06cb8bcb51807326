// The converse of demand 3: the programs lose none of the network's behaviour. No functions: specs/ has the statements, and proofs/ the laws.
#![tactic(auto)]
