// The static library of the C interface, which include/zincpapaya.h declares: one export for each function of the crate zincpapaya, of the same name.
// An export has the clauses of the function that it calls, and does nothing else. tools/exports.py writes this crate, and the gate sees that it is as written.
#![tactic(auto)]

pub mod arithmetic;
pub mod execute;
pub mod memory;
