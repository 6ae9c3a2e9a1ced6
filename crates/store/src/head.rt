// The places of the head's numbers in `words` (docs/BUFFERS.md): the layout, the three counts of the opening, and what is in use.
pub const STATIC_MEMORY: usize = 0;

pub const CALLDATA: usize = 1;

pub const BOOTLOADER_HEAP: usize = 2;

pub const BOOTLOADER_AUX: usize = 3;

pub const BASE: usize = 4;

pub const STRIDE: usize = 5;
// how many numbers the layout has: they come first
pub const LAYOUT_LENGTH: usize = 6;

pub const CHUNKS: usize = 6;

pub const PAGES: usize = 7;

pub const JOURNAL_WORDS: usize = 8;

pub const HELD: usize = 9;

pub const ENTRIES: usize = 10;

pub const DYNAMIC_LENGTH: usize = 11;
// the lengths of the journals, one after the other: that of the bootloader heap first, then that of the bootloader aux heap
pub const JOURNALS: usize = 12;
// how many journals there are
pub const JOURNAL_COUNT: usize = 2;

pub const HEAP_JOURNAL: usize = JOURNALS;

pub const AUX_JOURNAL: usize = JOURNALS + 1;
// how many of the pool's words a search for a pooled slot skips, from the first on: they are 0
pub const POOL_SKIP: usize = 15;
// how many numbers the head has
pub const LENGTH: usize = 16;
// how many fixed pages there are: they have the entries from 0 on
pub const FIXED_PAGES: u64 = 4;

pub const FIXED_ENTRIES: usize = FIXED_PAGES as usize;
