// No code: theorems on the states that the contracts of build and update speak of. See specs/Agreement.antt.
#![tactic(auto)]
