// The field engineer's card: walks five paths on the linked library and prints a line for each, so that running it checks an installation.
#![tactic(auto)]

mod frames;
mod memory;
mod paths;
mod report;
mod samples;

use memory::Memory;
use paths::Path;

// The five lines, and how many paths are right. Each piece is a print of its own: one that cannot be written is left out, and the next is tried.
fn main(rt: HostRuntime) {
    let mut memory = Memory::new();
    let mut right: usize = 0;
    for path in Path::ALL {
        let _ = print!(rt; "{path}:");
        match path.walk(&mut memory) {
            Ok(()) => {
                let _ = println!(rt; " ok");
                right += 1;
            }
            Err(wrong) => {
                wrong.print(&rt);
                let _ = println!(rt);
            }
        }
    }
    let _ = print!(rt; "card: ");
    let _ = print!(rt; "{right}");
    let _ = println!(rt; " of {} paths right", Path::ALL.len());
}
