// What worked cases are made of: names and books, tests of an answer, what a report says, and the definitions opened at once. All of it stands in specs/.
#![tactic(auto)]
