// Walks the edges of a memory by running the library: each line of the input has a call and what a plain map of bytes answers.
#![tactic(auto)]

mod call;
mod damage;
mod library;
mod memory;
mod naive;
mod walk;

use memory::Memory;

// The descriptor of the standard input.
const STDIN: i32 = 0;

// The first 65,536 bytes of the input are walked, or as many as can be read.
fn main(rt: HostRuntime) {
    let mut input = io::large_buffer();
    let n = io::read_full(STDIN, &mut input);
    walk::walk(&rt, &mut Memory::new(), &input[..n]);
}
