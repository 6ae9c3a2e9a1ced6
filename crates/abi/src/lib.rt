// What exported functions share: statuses, the reports of executions, and answers returned through an output.
// Stays: statuses, frames and answers are numbers in slices: the C interface.
#![tactic(auto)]

pub mod answers;
pub mod executions;
pub mod status;
