// The plain words of the definitions and their laws stand in specs/; there are no functions here.
#![tactic(auto)]
