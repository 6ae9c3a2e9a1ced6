// The statuses that are no refusal's number.
// The instruction panicked.
pub const PANICKED: u32 = 100;
// The instruction was carried out, and the hook stops the run.
pub const STOPPED: u32 = 101;
// A slice has another length than the function requires.
pub const UNFIT: u32 = 102;
