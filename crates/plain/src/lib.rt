// The plain map of document 01, and the claim about every list of calls: specs/. There is no code here; crate `lists` makes the claim of the code.
#![tactic(auto)]
