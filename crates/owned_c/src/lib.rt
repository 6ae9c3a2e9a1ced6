// The static library that the Rust crate's `Heaps` links: one export for each function of the crate owned that it calls, of the same name.
// An export has the clauses of the function that it calls, and does nothing else. tools/exports.py writes this crate, and the gate sees that it is as written.
#![tactic(auto)]

pub mod execute;
pub mod memory;
