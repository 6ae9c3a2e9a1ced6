// The loads of a list, one after another.
use crate::memory::Memory;
use crate::question::Question;
use execution::ExecutionStatus;
use page_ids::PageId;
use state::{Area, Frame};

// How loads ended: the gas left, the area's bound, how many were carried out, and whether one panicked.
#[derive(Clone, Copy)]
pub struct Ran {
    pub gas: u32,
    pub bound: u32,
    pub count: usize,
    pub panicked: bool,
}

impl Ran {
    fn new(last: Frame, area: Area, count: usize) -> Self {
        Ran {
            gas: last.gas,
            bound: match area {
                Area::Heap => last.heap_bound,
                Area::Aux => last.aux_bound,
            },
            count,
            panicked: last.panicked,
        }
    }
}

// A frame whose bound of the other area is 9.
fn first_frame(gas: u32, bound: u32, area: Area) -> Frame {
    let (heap_bound, aux_bound) = match area {
        Area::Heap => (bound, 9),
        Area::Aux => (9, bound),
    };
    Frame {
        gas,
        heap: PageId(66),
        aux: PageId(67),
        heap_bound,
        aux_bound,
        panicked: false,
    }
}

// Each load is given the frame that the last one left, up to the first that is not carried out.
pub fn run(memory: &Memory, asked: &Question, area: Area) -> Ran {
    let mut frame = first_frame(asked.gas, asked.bound, area);
    for (count, address) in asked.list.iter().enumerate() {
        let executed = memory.load(frame, area, *address);
        frame = executed.frame;
        if !matches!(executed.status, ExecutionStatus::Running) {
            return Ran::new(frame, area, count);
        }
    }
    Ran::new(frame, area, asked.list.len())
}
