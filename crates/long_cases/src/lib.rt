// Worked cases on long books, computed on the definitions: all of it stands in specs/.
#![tactic(auto)]
