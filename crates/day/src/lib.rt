// C-19's answers, what they leave in both lent buffers, and a day of movements: definitions, laws and computed cases, without code.
#![tactic(auto)]
