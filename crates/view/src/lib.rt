// What calls see of a memory, what each call does to it, and which refusal it gets: specs/. There is no code here; every call's contract cites it.
#![tactic(auto)]
