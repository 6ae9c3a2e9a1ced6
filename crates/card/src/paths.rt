// The five paths. Each opens its memory anew, in buffers that have whatever the last path left.
use crate::frames::{self, Touch};
use crate::memory::Memory;
use crate::report::Wrong;
use crate::samples;
use fat_pointer::FatPointer;
use page_ids::PageId;
use std::fmt;

// The heap and the aux heap of the first far call, the heap of the second, and the bootloader's.
const HEAP: PageId = PageId(66);

const AUX: PageId = PageId(67);

const NEXT_HEAP: PageId = PageId(74);

const BOOTLOADER: PageId = PageId(5);

// The window of 257 bytes from 256 on, which ends with the first byte of a chunk.
const START: u32 = 256;

const LENGTH: u32 = 257;

#[derive(Clone, Copy)]
pub enum Path {
    Edge,
    Fresh,
    Paid,
    Window,
    Rollback,
}

impl fmt::Display for Path {
    fn fmt<W: fmt::Write>(&self, f: &mut fmt::Formatter<W>) -> fmt::Result {
        f.write_str(match self {
            Path::Edge => "1 word over a chunk edge",
            Path::Fresh => "2 new page after a freed one",
            Path::Paid => "3 second touch of paid memory",
            Path::Window => "4 pointer into a window",
            Path::Rollback => "5 rollback of overlapping writes",
        })
    }
}

impl Path {
    pub const ALL: [Path; 5] = [
        Path::Edge,
        Path::Fresh,
        Path::Paid,
        Path::Window,
        Path::Rollback,
    ];

    // Walks the path, up to the first answer that is wrong.
    pub fn walk(self, memory: &mut Memory) -> Result<(), Wrong> {
        memory.open()?;
        match self {
            Path::Edge => edge(memory),
            Path::Fresh => fresh(memory),
            Path::Paid => paid(memory),
            Path::Window => window(memory),
            Path::Rollback => rollback(memory),
        }
    }
}

// Words over a chunk edge, read on both sides: half of the word at 240, and the last byte of that at 225. Catches a half-written word.
fn edge(memory: &mut Memory) -> Result<(), Wrong> {
    memory.write(HEAP, 240, samples::COUNTING)?;
    memory.write(AUX, 225, samples::COUNTING)?;
    memory.has_word(HEAP, 240, samples::COUNTING)?;
    memory.has_word(HEAP, 224, samples::FRONT_HALF)?;
    memory.has_word(HEAP, 256, samples::BACK_HALF)?;
    memory.has_word(AUX, 225, samples::COUNTING)?;
    memory.has_word(AUX, 256, samples::LAST_BYTE)
}

// A page takes over the eight chunks of a freed one. Catches old bytes in a new call.
fn fresh(memory: &mut Memory) -> Result<(), Wrong> {
    memory.fill(HEAP)?;
    memory.free(HEAP)?;
    memory.allocate(NEXT_HEAP)?;
    memory.hold(NEXT_HEAP)?;
    memory.is_blank(NEXT_HEAP)
}

// Paid memory is touched again. Catches a second growth charge.
// The word at 100 ends at 132: of 1,000 gas 868 is left, also after the second touch. That at 101 has one byte that is not paid.
fn paid(memory: &mut Memory) -> Result<(), Wrong> {
    let first = Touch {
        number: 1,
        address: 100,
        gas: 868,
        bound: 132,
    };
    let second = Touch { number: 2, ..first };
    let third = Touch { number: 3, ..first };
    let last = Touch {
        number: 4,
        address: 101,
        gas: 867,
        bound: 133,
    };
    let frame = frames::store(memory, frames::NEW, first)?;
    let frame = frames::store(memory, frame, second)?;
    let frame = frames::load(memory, frame, third)?;
    frames::load(memory, frame, last)?;
    Ok(())
}

// A pointer to the window, at an offset.
fn pointer(offset: u32) -> FatPointer {
    FatPointer {
        offset,
        memory_page: HEAP,
        start: START,
        length: LENGTH,
    }
}

// A page is shrunk to the window. Catches a lost last byte.
// What is left of the page: 256 + 225 is 481, where the word was written, and 256 + 256 is 512, its last byte. The bytes at 800 are freed.
fn window(memory: &mut Memory) -> Result<(), Wrong> {
    memory.write(HEAP, 481, samples::COUNTING)?;
    memory.write(HEAP, 800, samples::COUNTING)?;
    memory.shrink(HEAP, START, LENGTH)?;
    frames::shows(memory, pointer(225), samples::COUNTING, 32)?;
    frames::shows(memory, pointer(256), samples::LAST_BYTE, 1)?;
    memory.has_word(HEAP, 800, samples::ZERO)
}

// A word, a snapshot, and two writes that overlap it and each other, which are rolled back.
// Catches undoing oldest first, after which the bytes from 16 to 39 would be 171.
fn rollback(memory: &mut Memory) -> Result<(), Wrong> {
    memory.write(BOOTLOADER, 0, samples::COUNTING)?;
    memory.has_history(1)?;
    memory.write(BOOTLOADER, 8, samples::MANY_171)?;
    memory.write(BOOTLOADER, 16, samples::MANY_205)?;
    memory.roll_back(1, 0)?;
    memory.has_history(1)?;
    memory.has_word(BOOTLOADER, 0, samples::COUNTING)?;
    memory.has_word(BOOTLOADER, 32, samples::ZERO)
}
