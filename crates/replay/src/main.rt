// Puts the calls of a file to the library, and counts the answers that differ from those of vm2. rust/README.md describes the lines.
#![tactic(auto)]

mod arithmetic;
mod call;
mod content;
mod execute;
mod fields;
mod input;
mod instruction;
mod kept;
mod machine;
mod memory;
mod numbers;
mod on_memory;
mod report;
mod run;
mod stored;

fn main(rt: HostRuntime) {
    run::replay(&rt, rt.stdin());
}
