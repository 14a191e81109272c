// Worked cases, computed on the definitions: all of it stands in specs/.
#![tactic(auto)]
