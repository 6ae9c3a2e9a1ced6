// The library's calls as C makes them: include/zincpapaya.h declares each function, with the lengths and the statuses that it speaks of. The crate zincpapaya_c exports them under the same names.
// Each takes numbers and slices alone, demands nothing of them, and is thin over the public call of the same name in a crate below.
// An instruction makes the test itself and calls what comes after it, since the length of its registers is tested first.
// Stays: the four lent buffers, a layout, a word and a frame are numbers and slices side by side: the C interface.
#![tactic(auto)]

pub mod arithmetic;
pub mod execute;
pub mod memory;
