// What loads and stores in one frame pay: two claims about their contracts. There is no code here.
#![tactic(auto)]
