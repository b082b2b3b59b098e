// Definitions and theorems only: a plan that can be had is feasible.
#![tactic(auto)]
