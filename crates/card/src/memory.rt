// A memory, with its four buffers, and the library's calls on it. Each says what differs from what is expected.
ghost use Rattle.std.specs.Prelude.{◌≤◌, length};

use crate::report::{Wrong, same, same_word};
use crate::samples;
use opening::Capacity;
use outcome::Refusal;
use page_ids::{Address, BasePage, Layout, PageId};
use word::Word;

// What the memory has room for.
const CAPACITY: Capacity = Capacity {
    chunks: 8,
    pages: 4,
    journal_words: 8,
};

// The lengths of the four buffers for this, as docs/BUFFERS.md states.
const BYTES: usize = 2560;

const KEYS: usize = 16;

const ORDER: usize = 32;

const WORDS: usize = 65;

// The bytes of eight chunks.
const EIGHT_CHUNKS: usize = 2048;

// The layout of document 01's example: heaps are 66, 74, 82 and on.
const LAYOUT: Layout = Layout {
    static_memory: PageId(1),
    calldata: PageId(4),
    bootloader_heap: PageId(5),
    bootloader_aux: PageId(6),
    base: BasePage(64),
    stride: 8,
};

#[derive(Drop)]
pub struct Memory {
    pub bytes: [u8; BYTES],
    pub keys: [u64; KEYS],
    pub order: [u32; ORDER],
    pub words: [u64; WORDS],
}

// A call must be carried out.
fn carried_out<T>(refusal: &'static str, answer: Result<T, Refusal>) -> Result<T, Wrong> {
    answer.map_err(|came| Wrong::Number {
        what: refusal,
        expected: 0,
        came: u64::from(u32::from(came)),
    })
}

// How many bytes are not zero.
fn other_than_zero(read: &[u8]) -> usize
    ensures { result ≤ length read.now }
{
    read.iter().filter(|byte| **byte != 0).count()
}

impl Memory {
    pub fn new() -> Self {
        Memory {
            bytes: [0; BYTES],
            keys: [0; KEYS],
            order: [0; ORDER],
            words: [0; WORDS],
        }
    }

    // Opens the memory anew, with no calldata.
    pub fn open(&mut self) -> Result<(), Wrong> {
        let answer = opening::open(
            &mut self.bytes,
            &mut self.keys,
            &mut self.order,
            &mut self.words,
            LAYOUT,
            CAPACITY,
            b"",
        );
        carried_out("refusal of the opening", answer)
    }

    pub fn write(&mut self, page: PageId, address: u32, word: Word) -> Result<(), Wrong> {
        let answer = writes::write_u256(
            &mut self.bytes,
            &mut self.keys,
            &mut self.order,
            &mut self.words,
            page,
            Address(address),
            word,
        );
        carried_out("refusal of a write", answer)
    }

    // Writes 2,048 bytes of 171: each byte of eight chunks.
    pub fn fill(&mut self, page: PageId) -> Result<(), Wrong> {
        let answer = writes::write_bytes(
            &mut self.bytes,
            &mut self.keys,
            &mut self.order,
            &mut self.words,
            page,
            Address(0),
            &[171; EIGHT_CHUNKS],
        );
        carried_out("refusal of the write of eight chunks", answer)
    }

    // Writes a word of zeros over every second chunk edge, so that the page holds eight chunks.
    pub fn hold(&mut self, page: PageId) -> Result<(), Wrong> {
        for address in [240, 752, 1264, 1776] {
            self.write(page, address, samples::ZERO)?;
        }
        Ok(())
    }

    pub fn allocate(&mut self, page: PageId) -> Result<(), Wrong> {
        let answer = writes::allocate_at(
            &mut self.bytes,
            &mut self.keys,
            &mut self.order,
            &mut self.words,
            page,
        );
        carried_out("refusal of an allocation", answer)
    }

    pub fn free(&mut self, page: PageId) -> Result<(), Wrong> {
        let answer = freeing::deallocate(
            &mut self.bytes,
            &mut self.keys,
            &mut self.order,
            &mut self.words,
            page,
        );
        carried_out("refusal of a free", answer)
    }

    // Frees all of a page but a window.
    pub fn shrink(&mut self, page: PageId, start: u32, length: u32) -> Result<(), Wrong> {
        let answer = freeing::compact_to_window(
            &mut self.bytes,
            &mut self.keys,
            &mut self.order,
            &mut self.words,
            page,
            Address(start),
            length,
        );
        carried_out("refusal of the window", answer)
    }

    // Goes back to so many words of the heap's journal and of the aux heap's.
    pub fn roll_back(&mut self, heap: u64, aux: u64) -> Result<(), Wrong> {
        let answer = history::rollback(
            &mut self.bytes,
            &mut self.keys,
            &mut self.order,
            &mut self.words,
            heap,
            aux,
        );
        carried_out("refusal of the rollback", answer)
    }

    // The word at an address must be the expected one.
    pub fn has_word(&self, page: PageId, address: u32, expected: Word) -> Result<(), Wrong> {
        let read = reads::read_u256(
            &self.bytes,
            &self.keys,
            &self.order,
            &self.words,
            page,
            Address(address),
        );
        let word = carried_out("refusal of a read", read)?;
        same_word("word", address, expected, word)
    }

    // The first 2,048 bytes of a page must be zero. The output has ones before, so that zeros in it were read.
    pub fn is_blank(&self, page: PageId) -> Result<(), Wrong> {
        let mut out = [1; EIGHT_CHUNKS];
        let answer = reads::read_range_big_endian(
            &self.bytes,
            &self.keys,
            &self.order,
            &self.words,
            page,
            Address(0),
            Address(EIGHT_CHUNKS as u32),
            &mut out,
        );
        carried_out("refusal of a range read", answer)?;
        same("old bytes in the new page", 0, other_than_zero(&out) as u64)
    }

    // A snapshot must find as many words in the heap's journal, and none in the aux heap's.
    pub fn has_history(&self, expected: u64) -> Result<(), Wrong> {
        let read = reads::snapshot(&self.bytes, &self.keys, &self.order, &self.words);
        let marks = carried_out("refusal of a snapshot", read)?;
        same("snapshot of the heap", expected, u64::from(marks.heap))?;
        same("snapshot of the aux heap", 0, u64::from(marks.aux))
    }
}
