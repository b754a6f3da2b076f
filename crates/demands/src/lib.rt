// The third demand: specs/Demand.antt states it, and proofs/Demand.antt proves it. There is no code here.
#![tactic(auto)]
