// Quotes worked out by hand, each beside the loads that it speaks of: a line tells the quote, and whether loads of the heap and of the aux heap pay the same.
#![tactic(auto)]

mod loads;
mod memory;
mod question;

use memory::Memory;
use question::{Beside, Question};
use state::Area;

// A line: the list with its gas and bound, the quote, and the loads of both areas. A refused quote has no loads beside it.
// Each piece is a print of its own: one that cannot be written is left out, and the next is tried.
fn line(rt: &impl Print, memory: &Memory, list: &[u32], gas: u32, bound: u32) {
    let asked = Question { list, gas, bound };
    asked.print(rt);
    let _ = print!(rt; "=> ");
    match state::quote::quote(list, gas, bound) {
        Ok(quoted) => {
            question::print_quote(rt, quoted);
            let _ = print!(rt; "; heap loads ");
            Beside::new(memory, asked, quoted, Area::Heap).print(rt);
            let _ = print!(rt; "; aux loads ");
            Beside::new(memory, asked, quoted, Area::Aux).print(rt);
        }
        Err(refusal) => {
            let number = u32::from(refusal);
            let _ = print!(rt; "refused ");
            let _ = print!(rt; "{number}");
        }
    }
    let _ = println!(rt);
}

// Paid from one bound: growth by steps, gas that is just enough or one short, and a list of no addresses.
fn paid(rt: &impl Print, memory: &Memory) {
    let steps = [4064, 4065, 0, 4070];
    for gas in [10, 6, 5] {
        line(rt, memory, &steps, gas, 4096);
    }
    line(rt, memory, &[4064], 0, 4096);
    line(rt, memory, &[4065], 0, 4096);
    line(rt, memory, &[], 7, 4096);
    line(rt, memory, &[0, 4065, 64], 9, 4096);
}

// Addresses at the operand limit, with the lowest bound and with the highest.
fn limit(rt: &impl Print, memory: &Memory) {
    let last = [word::LAST_ADDRESS];
    line(rt, memory, &last, u32::MAX, 0);
    line(rt, memory, &last, 0, u32::MAX);
    let past = [word::LAST_ADDRESS + 1];
    line(rt, memory, &past, 7, 0);
    line(rt, memory, &past, 7, u32::MAX);
    line(rt, memory, &[0, u32::MAX], 100, 0);
}

// The same addresses in another order end elsewhere.
fn in_order(rt: &impl Print, memory: &Memory) {
    line(rt, memory, &[32, 0], 40, 0);
    line(rt, memory, &[0, 32], 40, 0);
}

// The longest list, and one that is too long.
fn long(rt: &impl Print, memory: &Memory) {
    let zeros = [0; 4097];
    line(rt, memory, &zeros[..4096], 32, 0);
    line(rt, memory, &zeros[..4096], 31, 0);
    line(rt, memory, &zeros, 32, 0);
}

fn main(rt: HostRuntime) {
    let memory = Memory::open();
    paid(&rt, &memory);
    limit(&rt, &memory);
    in_order(&rt, &memory);
    long(&rt, &memory);
}
