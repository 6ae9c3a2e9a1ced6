// A memory of 1 chunk, 1 page and no journal words, and the library's calls on it.
use opening::Capacity;
use page_ids::{BasePage, Layout, PageId};
use registers::LENGTH;
use state::{Area, Frame};
use word::Word;
use write_back::Executed;

// The layout of document 01's example.
const LAYOUT: Layout = Layout {
    static_memory: PageId(1),
    calldata: PageId(4),
    bootloader_heap: PageId(5),
    bootloader_aux: PageId(6),
    base: BasePage(64),
    stride: 8,
};

const CAPACITY: Capacity = Capacity {
    chunks: 1,
    pages: 1,
    journal_words: 0,
};

// The registers of a load: its address, the word that it reads, and the address of the next word.
const ADDRESS: u32 = 1;

const WORD: u32 = 3;

const NEXT: u32 = 4;

// The lengths are those that docs/BUFFERS.md states.
#[derive(Drop)]
pub struct Memory {
    bytes: [u8; 256],
    keys: [u64; 6],
    order: [u32; 8],
    words: [u64; 17],
}

impl Memory {
    pub fn open() -> Self {
        let mut memory = Memory {
            bytes: [0; 256],
            keys: [0; 6],
            order: [0; 8],
            words: [0; 17],
        };
        // Its lengths are right, so it is not refused.
        let _ = opening::open(
            &mut memory.bytes,
            &mut memory.keys,
            &mut memory.order,
            &mut memory.words,
            LAYOUT,
            CAPACITY,
            b"",
        );
        memory
    }

    // A load at an address, with registers of its own: only its frame and its status count here.
    pub fn load(&self, frame: Frame, area: Area, address: u32) -> Executed {
        let operand = Word {
            limbs: [u64::from(address), 0, 0, 0],
        };
        let mut registers = [0; LENGTH];
        registers::set(&mut registers, ADDRESS, operand, false);
        instructions::load(
            &self.bytes,
            &self.keys,
            &self.order,
            &self.words,
            &mut registers,
            frame,
            area,
            registers::load_places(ADDRESS, WORD, NEXT, true),
        )
    }
}
