// Definitions and theorems only: which plans can be had from a state at a limit.
#![tactic(auto)]
