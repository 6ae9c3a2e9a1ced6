// A call of the library, or the change of one element, as a line names it: by a letter, with numbers for its arguments.
use crate::memory::{Buffer, narrow};
use page_ids::{Address, BasePage, Layout, PageId};
use word::Word;

// The numbers of a line: those of the call from place 1 on, then the refusal and the value.
pub const PLACES: usize = 13;

// The word of the bytes 1 to 32, in this order.
const COUNTING: Word = Word {
    limbs: [
        0x191a1b1c1d1e1f20,
        0x1112131415161718,
        0x090a0b0c0d0e0f10,
        0x0102030405060708,
    ],
};

// What an opening has, its counts as the line has them.
#[derive(Clone, Copy)]
pub struct Opening {
    pub layout: Layout,
    pub chunks: u64,
    pub pages: u64,
    pub room: u64,
    pub calldata: u64,
}

// Opens or changes a memory.
#[derive(Clone, Copy)]
pub enum Change {
    Open(Opening),
    WriteWord {
        page: PageId,
        address: Address,
        word: Word,
    },
    WriteBytes {
        page: PageId,
        start: Address,
        length: u64,
    },
    Allocate {
        page: PageId,
    },
    AllocateWithContent {
        page: PageId,
        length: u64,
    },
    RollBack {
        heap: u64,
        aux: u64,
    },
    DeleteHistory,
}

// Looks at a memory.
#[derive(Clone, Copy)]
pub enum Look {
    // A limb of a word, the lowest being 0.
    Word {
        page: PageId,
        address: Address,
        limb: u64,
    },
    Byte {
        page: PageId,
        address: Address,
    },
    // The highest limb of a word that is read partially.
    Partial {
        page: PageId,
        start: Address,
        end: Address,
    },
    // The last byte of a range.
    Range {
        page: PageId,
        start: Address,
        end: Address,
    },
    DynamicLength,
    Snapshot,
    // A byte of a chunk.
    Chunk {
        page: PageId,
        number: u32,
        place: u8,
    },
    // The first byte of a chunk, with a block of so many zeros.
    ChunkBeside {
        page: PageId,
        number: u32,
        zeros: u64,
    },
    // The first byte of a chunk, with a block one of whose bytes is 1.
    ChunkMarked {
        page: PageId,
        number: u32,
        mark: u8,
    },
}

#[derive(Clone, Copy)]
pub enum Call {
    Set {
        buffer: Buffer,
        place: usize,
        value: u64,
    },
    Change(Change),
    Look(Look),
}

impl From<&[u64; PLACES]> for Opening {
    fn from(numbers: &[u64; PLACES]) -> Self {
        let [
            _,
            a,
            b,
            c,
            d,
            base,
            stride,
            chunks,
            pages,
            room,
            calldata,
            _,
            _,
        ] = *numbers;
        Opening {
            layout: Layout {
                static_memory: PageId(narrow(a)),
                calldata: PageId(narrow(b)),
                bootloader_heap: PageId(narrow(c)),
                bootloader_aux: PageId(narrow(d)),
                base: BasePage(narrow(base)),
                stride: narrow(stride),
            },
            chunks,
            pages,
            room,
            calldata,
        }
    }
}

impl Call {
    // The call of a letter. Any other letter is that of a range.
    pub fn new(letter: u8, numbers: &[u64; PLACES]) -> Self {
        let [_, first, second, third, ..] = *numbers;
        let page = PageId(narrow(first));
        let address = Address(narrow(second));
        let end = Address(narrow(third));
        let number = narrow(second);
        let place = (third & 0xff) as u8;
        match letter {
            b'e' => Call::Set {
                buffer: Buffer::from(first),
                place: second as usize,
                value: third,
            },
            b'o' => Call::Change(Change::Open(Opening::from(numbers))),
            b'w' => Call::Change(Change::WriteWord {
                page,
                address,
                word: Word {
                    limbs: [third, 0, 0, 0],
                },
            }),
            b'c' => Call::Change(Change::WriteWord {
                page,
                address,
                word: COUNTING,
            }),
            b'b' => Call::Change(Change::WriteBytes {
                page,
                start: address,
                length: third,
            }),
            b'a' => Call::Change(Change::Allocate { page }),
            b'f' => Call::Change(Change::AllocateWithContent {
                page,
                length: third,
            }),
            b'u' => Call::Change(Change::RollBack {
                heap: first,
                aux: second,
            }),
            b'd' => Call::Change(Change::DeleteHistory),
            b'r' => Call::Look(Look::Word {
                page,
                address,
                limb: third,
            }),
            b'y' => Call::Look(Look::Byte { page, address }),
            b'p' => Call::Look(Look::Partial {
                page,
                start: address,
                end,
            }),
            b'l' => Call::Look(Look::DynamicLength),
            b's' => Call::Look(Look::Snapshot),
            b'k' => Call::Look(Look::Chunk {
                page,
                number,
                place,
            }),
            b'z' => Call::Look(Look::ChunkBeside {
                page,
                number,
                zeros: third,
            }),
            b'n' => Call::Look(Look::ChunkMarked {
                page,
                number,
                mark: place,
            }),
            _ => Call::Look(Look::Range {
                page,
                start: address,
                end,
            }),
        }
    }
}
