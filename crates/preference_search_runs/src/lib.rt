// Definitions and theorems only: whole runs of the preference search, and what they remember.
#![tactic(auto)]
