// Theorems about the definitions that the calls are proved against: no function's proof cites them.
#![tactic(auto)]
