// Definitions and theorems only: the sample day (SPEC 13), over what the calls give and leave.
#![tactic(auto)]
