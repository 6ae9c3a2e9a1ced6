// What a quote is asked for, and what is printed of it and of its loads.
use crate::loads;
use crate::loads::Ran;
use crate::memory::Memory;
use state::Area;
use state::quote::RunEnd;

// A list of addresses, and the gas and the bound that their loads begin with.
#[derive(Clone, Copy)]
pub struct Question<'a> {
    pub list: &'a [u32],
    pub gas: u32,
    pub bound: u32,
}

impl Question<'_> {
    // Prints the bound, the gas and the list. One of more than four addresses is told by how many there are.
    pub fn print(&self, rt: &impl Print) {
        let Question { list, gas, bound } = *self;
        let _ = print!(rt; "bound ");
        let _ = print!(rt; "{bound}");
        let _ = print!(rt; ", gas ");
        let _ = print!(rt; "{gas}");
        let _ = print!(rt; ": ");
        let count = list.len();
        if count > 4 {
            let _ = print!(rt; "{count}");
            let _ = print!(rt; " addresses ");
            return;
        }
        for address in list {
            let _ = print!(rt; "{address}");
            let _ = print!(rt; " ");
        }
    }
}

// Prints where a run of loads ends: what it spent of the gas or left, which the name tells, the bound and the position.
fn print_end(rt: &impl Print, name: &'static str, gas: u32, bound: u32, position: usize) {
    let _ = print!(rt; "{name}");
    let _ = print!(rt; "{gas}");
    let _ = print!(rt; ", bound ");
    let _ = print!(rt; "{bound}");
    let _ = print!(rt; ", position ");
    let _ = print!(rt; "{position}");
}

// Prints a quote.
pub fn print_quote(rt: &impl Print, quoted: RunEnd) {
    let RunEnd {
        spent,
        bound,
        position,
    } = quoted;
    print_end(rt, "spent ", spent, bound, position as usize);
}

// A quote, beside the loads that it speaks of.
#[derive(Clone, Copy)]
pub struct Beside<'a> {
    asked: Question<'a>,
    quoted: RunEnd,
    ran: Ran,
}

impl<'a> Beside<'a> {
    pub fn new(memory: &Memory, asked: Question<'a>, quoted: RunEnd, area: Area) -> Self {
        Beside {
            asked,
            quoted,
            ran: loads::run(memory, &asked, area),
        }
    }

    // Whether the loads ended as the quote says, and panicked if they ended before the list.
    fn is_same(&self) -> bool {
        let Beside { asked, quoted, ran } = *self;
        (ran.count < asked.list.len()) == ran.panicked
            && quoted.spent.checked_add(ran.gas) == Some(asked.gas)
            && quoted.bound == ran.bound
            && quoted.position as usize == ran.count
    }

    // Prints whether the loads were the same, and how they ended where they were not.
    pub fn print(&self, rt: &impl Print) {
        if self.is_same() {
            let _ = print!(rt; "the same");
            return;
        }
        let Ran {
            gas,
            bound,
            count,
            ..
        } = self.ran;
        print_end(rt, "OTHERWISE: gas left ", gas, bound, count);
    }
}
