// The claim of document 01 about every list of calls, and what loads and stores pay, of the code's own calls: specs/ states both. There is no code here.
#![tactic(auto)]
