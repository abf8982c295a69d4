// What is promised of the five calls: definitions and theorems, no code.
#![tactic(auto)]
