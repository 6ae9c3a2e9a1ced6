// A frame by value, its gas, and what an access to its heap or aux heap pays.
// vm2: `use_gas` of state.rs and `grow_heap` of heap_access.rs.
#![tactic(auto)]

ghost use Rattle.std.specs.Prelude.{◌≡◌};
ghost use Rattle.state.specs.Access.{new_bound, used, grown, accessed, bound_of, with_growth, frame_grown};

use page_ids::{Address, PageId};

pub mod quote;

#[derive(Clone, Copy)]
pub struct Frame {
    pub gas: u32,
    pub heap: PageId,
    pub aux: PageId,
    pub heap_bound: u32,
    pub aux_bound: u32,
    pub panicked: bool,
}

// Which of a frame's two pages an instruction reads or writes.
#[derive(Clone, Copy)]
pub enum Area {
    Heap,
    Aux,
}

// The gas that is left, and whether the amount was paid.
// Stays: what is left is part of the answer where nothing was paid too (`used`, and the number that `zp_use_gas` gives), so an `Option` or a `Result` would have it in both of its cases.
#[derive(Clone, Copy)]
pub struct Gas {
    pub left: u32,
    pub paid: bool,
}

// Gas and bound after a growth or an access, and whether it was paid.
// Stays: a panic has gas and bound too (`accessed`, and `RunEnd` tells both), so a `Result` would have the same two in both of its cases.
#[derive(Clone, Copy)]
pub struct Growth {
    pub gas: u32,
    pub bound: u32,
    pub paid: bool,
}

// The frame after a growth or an access, and whether it was paid.
// Stays: a panic leaves a frame too, with its gas emptied (`frame_grown`), so a `Result` would have a frame in both of its cases.
#[derive(Clone, Copy)]
pub struct FrameStep {
    pub frame: Frame,
    pub paid: bool,
}

// The bound that an access at an address requires: a wrapping sum, which the operand limit keeps from wrapping.
pub fn new_bound(address: Address) -> u32
    ensures { result ≡ new_bound address.0 }
{
    address.0.wrapping_add(32)
}

// Uses gas; too little of it is emptied.
pub fn use_gas(gas: u32, amount: u32) -> Gas
    ensures { result ≡ used gas amount }
{
    Gas {
        left: gas.saturating_sub(amount),
        paid: amount <= gas,
    }
}

// Gas and bound after a growth to the bound `new`.
pub fn grow(gas: u32, bound: u32, new: u32) -> Growth
    ensures { result ≡ grown gas bound new }
{
    if new <= bound {
        return Growth {
            gas,
            bound,
            paid: true,
        };
    }
    let Gas { left, paid } = use_gas(gas, new - bound);
    Growth {
        gas: left,
        bound: if paid { new } else { bound },
        paid,
    }
}

// Gas and bound after an access at an address. An address above the limit empties the gas, and the access is not paid.
pub fn access(gas: u32, bound: u32, address: Address) -> Growth
    ensures { result ≡ accessed gas bound address.0 }
{
    if address.0 > word::LAST_ADDRESS {
        return Growth {
            gas: 0,
            bound,
            paid: false,
        };
    }
    grow(gas, bound, new_bound(address))
}

// The bound of an area.
fn bound_of(frame: Frame, area: Area) -> u32
    ensures { result ≡ bound_of frame area }
{
    match area {
        Area::Heap => frame.heap_bound,
        Area::Aux => frame.aux_bound,
    }
}

// The frame with gas and the one bound after a growth.
fn with_growth(frame: Frame, area: Area, grown: Growth) -> Frame
    ensures { result ≡ (with_growth frame area grown).frame }
{
    let gas = grown.gas;
    match area {
        Area::Heap => Frame {
            gas,
            heap_bound: grown.bound,
            ..frame
        },
        Area::Aux => Frame {
            gas,
            aux_bound: grown.bound,
            ..frame
        },
    }
}

// The growth of one area is paid from the frame's gas: the step that loads and stores take.
pub fn growth_step(frame: Frame, area: Area, new: u32) -> FrameStep
    ensures { result ≡ frame_grown frame area new }
{
    let grown = grow(frame.gas, bound_of(frame, area), new);
    FrameStep {
        frame: with_growth(frame, area, grown),
        paid: grown.paid,
    }
}

// The same step on a frame that is lent: tells whether it paid, which is true where nothing is due.
pub fn grow_heap(frame: &mut Frame, area: Area, new: u32) -> bool
    ensures { (frame.new ≡ (frame_grown frame.old area new).frame) × (result ≡ (frame_grown frame.old area new).paid) }
{
    let after = growth_step(*frame, area, new);
    *frame = after.frame;
    after.paid
}

// `grow_heap` for a caller that has the frame by value: a copy is lent to it, and given back.
pub fn grow_frame(frame: Frame, area: Area, new: u32) -> FrameStep
    ensures { result ≡ frame_grown frame area new }
{
    let mut lent = frame;
    let paid = grow_heap(&mut lent, area, new);
    FrameStep { frame: lent, paid }
}
