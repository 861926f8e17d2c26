// Theorems only: the twelve bench cases (R260 to R272) and the bench files of advances, in specs/Cases.
#![tactic(auto)]
