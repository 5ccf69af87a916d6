// Worked sheets: lists of sheets with their results, and theorems that the definitions give every one. No functions.
#![tactic(auto)]
