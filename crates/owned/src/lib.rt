// The calls of a host that owns its memory. All but the opening and the test itself require a well-formed memory, and do not test it. Each says of what it returns what the contract of the public call says.
// The crate owned_c exports them under the same names. No C header has them. The Rust crate's `Heaps` alone links them: it opens its buffers, lends them to nobody, and changes them by these calls alone (docs/PROOF.md).
// Speed requires the form of the four fast functions: what one hint finds is done in the function that is exported or in one that is inlined there, and all else is behind a call. The export itself is inlined.
// Stays: the four lent buffers, a layout, a word and a frame are numbers and slices side by side: the C interface.
#![tactic(auto)]

pub mod execute;
pub mod memory;
pub mod ran;
