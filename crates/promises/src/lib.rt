// What the exported entries promise, and that it follows from what the functions behind them promise: all of it stands in specs/ and proofs/.
#![tactic(auto)]
