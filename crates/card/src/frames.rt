// Instructions on a frame, and what they must leave.
use crate::memory::Memory;
use crate::report::{Wrong, same, same_gas, same_word};
use crate::samples;
use execution::{ExecutionStatus, Hook};
use fat_pointer::FatPointer;
use page_ids::{Address, PageId};
use state::{Area, Frame};
use word::Word;
use write_back::Executed;

// The registers of an instruction: its operand, the value that a store writes, and its two results. A load's first result is the word.
const OPERAND: u32 = 1;

const VALUE: u32 = 2;

const FIRST: u32 = 3;

const SECOND: u32 = 4;

// The frame of the first far call, with 1,000 gas; nothing of its pages is paid.
pub const NEW: Frame = Frame {
    gas: 1000,
    heap: PageId(66),
    aux: PageId(67),
    heap_bound: 0,
    aux_bound: 0,
    panicked: false,
};

const NO_HOOK: Hook = Hook {
    on: false,
    address: Address(0),
};

// A touch of a frame's heap at an address, and the gas and the bound that it must leave.
#[derive(Clone, Copy)]
pub struct Touch {
    pub number: u32,
    pub address: u32,
    pub gas: u32,
    pub bound: u32,
}

// An instruction must have run. Numbers that no refusal has stand for a panic and a stop.
fn ran(refusal: &'static str, status: ExecutionStatus) -> Result<(), Wrong> {
    let came = match status {
        ExecutionStatus::Running => 0,
        ExecutionStatus::SuspendedOnHook(_) => 1000,
        ExecutionStatus::Panicked => 2000,
        ExecutionStatus::Refused(refusal) => u64::from(u32::from(refusal)),
    };
    same(refusal, 0, came)
}

// The frame after a touch, which must have run.
fn left(touch: Touch, executed: Executed) -> Result<Frame, Wrong> {
    let frame = executed.frame;
    ran("refusal of a touch", executed.status)?;
    same_gas(touch.number, touch.gas, frame.gas)?;
    same(
        "bound of the heap",
        u64::from(touch.bound),
        u64::from(frame.heap_bound),
    )?;
    Ok(frame)
}

// Stores the bytes 1 to 32 to the heap of a frame, with no hook.
pub fn store(memory: &mut Memory, frame: Frame, touch: Touch) -> Result<Frame, Wrong> {
    let mut registers = [0; registers::LENGTH];
    registers::set(
        &mut registers,
        OPERAND,
        samples::small(touch.address),
        false,
    );
    registers::set(&mut registers, VALUE, samples::COUNTING, false);
    let executed = instructions::store(
        &mut memory.bytes,
        &mut memory.keys,
        &mut memory.order,
        &mut memory.words,
        &mut registers,
        frame,
        Area::Heap,
        registers::store_places(OPERAND, VALUE, FIRST, SECOND, true),
        false,
        NO_HOOK,
    );
    left(touch, executed)
}

// Loads from the heap of a frame.
pub fn load(memory: &Memory, frame: Frame, touch: Touch) -> Result<Frame, Wrong> {
    let mut registers = [0; registers::LENGTH];
    registers::set(
        &mut registers,
        OPERAND,
        samples::small(touch.address),
        false,
    );
    let executed = instructions::load(
        &memory.bytes,
        &memory.keys,
        &memory.order,
        &memory.words,
        &mut registers,
        frame,
        Area::Heap,
        registers::load_places(OPERAND, FIRST, SECOND, true),
    );
    left(touch, executed)
}

// Loads what a pointer shows from its offset on: a word, which is left in a register, and how many bytes lead it. Both must be the expected ones.
pub fn shows(
    memory: &Memory,
    pointer: FatPointer,
    expected: Word,
    expected_bytes: u64,
) -> Result<(), Wrong> {
    let mut registers = [0; registers::LENGTH];
    registers::set(
        &mut registers,
        OPERAND,
        fat_pointer::into_u256(pointer),
        true,
    );
    let loaded = instructions::load_pointer(
        &memory.bytes,
        &memory.keys,
        &memory.order,
        &memory.words,
        &mut registers,
        NEW,
        registers::load_places(OPERAND, FIRST, SECOND, true),
    );
    ran("refusal of the pointer", loaded.executed.status)?;
    same(
        "bytes of the pointer",
        expected_bytes,
        u64::from(loaded.bytes_read),
    )?;
    let came = registers::value(&registers, FIRST, false);
    same_word("word of the pointer", pointer.offset, expected, came)
}
