// The four buffers of a memory, one element by its buffer and place, and the memory's own parts of the buffers.
ghost use Rattle.std.specs.Prelude.{◌≤◌};
ghost use Rattle.edges.specs.declared.memory.TheConstants.{BYTES, KEYS, ORDER, WORDS};

// The highest counts that the buffers have space for: of chunks, and of dynamic pages and of journal words.
const LENT_CHUNKS: usize = 66;

const MOST: usize = 16;

// The bytes of a chunk.
pub const CHUNK: usize = 256;

// The old bytes of a word in each journal, and its notes there.
const OLD_BYTES: usize = 64;

const NOTES: usize = 6;

const FIXED_PAGES: usize = 4;

// The places of `order` for a chunk: one in the index, and two for hints.
const ORDER_PLACES: usize = 3;

const HEAD: usize = 16;

// The chunks that have their bits in one word of the pool.
const POOL_BITS: usize = 64;

// The lengths of the buffers with the highest counts.
pub const BYTES: usize = CHUNK * LENT_CHUNKS + OLD_BYTES * MOST;

pub const KEYS: usize = LENT_CHUNKS + MOST + FIXED_PAGES;

pub const ORDER: usize = ORDER_PLACES * LENT_CHUNKS + MOST + FIXED_PAGES;

pub const WORDS: usize = HEAD + NOTES * MOST + (LENT_CHUNKS + POOL_BITS - 1) / POOL_BITS;

// Names a buffer by its number; any other number is that of the words.
#[derive(Clone, Copy)]
pub enum Buffer {
    Bytes,
    Keys,
    Order,
    Words,
}

impl From<u64> for Buffer {
    fn from(number: u64) -> Self {
        match number {
            0 => Buffer::Bytes,
            1 => Buffer::Keys,
            2 => Buffer::Order,
            _ => Buffer::Words,
        }
    }
}

impl Buffer {
    // The highest number of the buffer's elements.
    pub fn highest(self) -> u64 {
        match self {
            Buffer::Bytes => u64::from(u8::MAX),
            Buffer::Order => u64::from(u32::MAX),
            Buffer::Keys | Buffer::Words => u64::MAX,
        }
    }
}

// The lengths of a memory's own parts of the buffers, each part a leading one.
#[derive(Clone, Copy, PartialEq, Eq)]
pub struct Lengths {
    pub bytes: usize,
    pub keys: usize,
    pub order: usize,
    pub words: usize,
    ghost bytes_fit: { bytes ≤ BYTES },
    ghost keys_fit: { keys ≤ KEYS },
    ghost order_fits: { order ≤ ORDER },
    ghost words_fit: { words ≤ WORDS },
}

impl Lengths {
    // The lengths that follow from the counts (docs/BUFFERS.md), or from the highest ones.
    pub fn new(chunks: u64, pages: u64, room: u64) -> Self {
        let c = (chunks as usize).min(LENT_CHUNKS);
        let p = (pages as usize).min(MOST);
        let j = (room as usize).min(MOST);
        Lengths {
            bytes: CHUNK * c + OLD_BYTES * j,
            keys: c + p + FIXED_PAGES,
            order: ORDER_PLACES * c + p + FIXED_PAGES,
            words: HEAD + NOTES * j + (c + POOL_BITS - 1) / POOL_BITS,
        }
    }
}

// The buffers, and the lengths of the memory that is open in them.
#[derive(Clone, Copy, PartialEq, Eq)]
pub struct Memory {
    pub bytes: [u8; BYTES],
    pub keys: [u64; KEYS],
    pub order: [u32; ORDER],
    pub words: [u64; WORDS],
    pub lengths: Lengths,
}

// A memory's own parts of the buffers.
#[derive(Clone, Copy)]
pub struct Parts<'a> {
    pub bytes: &'a [u8],
    pub keys: &'a [u64],
    pub order: &'a [u32],
    pub words: &'a [u64],
}

// The low 32 bits of a number.
pub fn narrow(x: u64) -> u32 {
    (x & 0xffffffff) as u32
}

// Element i, and 0 past the end.
fn element<T: Copy + Into<u64>>(elements: &[T], i: usize) -> u64 {
    elements.get(i).map_or(0, |x| (*x).into())
}

// Sets element i, and none past the end.
fn set_element<T: Copy>(elements: &mut [T], i: usize, x: T) {
    if i < elements.len() {
        elements[i] = x;
    }
}

impl Memory {
    // No memory is open.
    pub fn new() -> Self {
        Memory {
            bytes: [0; BYTES],
            keys: [0; KEYS],
            order: [0; ORDER],
            words: [0; WORDS],
            lengths: Lengths::new(1, 1, 0),
        }
    }

    // Element i of a buffer, and 0 past its end.
    pub fn element(&self, buffer: Buffer, i: usize) -> u64 {
        match buffer {
            Buffer::Bytes => element(&self.bytes, i),
            Buffer::Keys => element(&self.keys, i),
            Buffer::Order => element(&self.order, i),
            Buffer::Words => element(&self.words, i),
        }
    }

    // Sets element i of a buffer to as much of a number as it has bits for.
    pub fn set_element(&mut self, buffer: Buffer, i: usize, x: u64) {
        match buffer {
            Buffer::Bytes => set_element(&mut self.bytes, i, (x & 0xff) as u8),
            Buffer::Keys => set_element(&mut self.keys, i, x),
            Buffer::Order => set_element(&mut self.order, i, narrow(x)),
            Buffer::Words => set_element(&mut self.words, i, x),
        }
    }

    pub fn parts(&self) -> Parts<'_> {
        let lengths = self.lengths;
        Parts {
            bytes: &self.bytes[..lengths.bytes],
            keys: &self.keys[..lengths.keys],
            order: &self.order[..lengths.order],
            words: &self.words[..lengths.words],
        }
    }
}
