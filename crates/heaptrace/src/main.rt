// Reads a trace from standard input and prints an answer to each of its lines. Document 01, 'The trace program'.
#![tactic(auto)]

mod lines;
mod output;

fn main(rt: HostRuntime) {
    let mut session = lines::start();
    let mut input = io::large_buffer();
    lines::run(rt.stdin(), &mut session, &mut input);
}
