// What an accepted memory must answer, by a plain scan of its keys as docs/BUFFERS.md describes them. It shares nothing with the library's lookup.
ghost use Rattle.std.specs.Prelude.{◌≤◌};

use crate::memory::{CHUNK, Parts};
use page_ids::{Address, PageId};
use reads::Marks;

// The key of chunk k of entry e is e times this number plus k plus 1.
const CHUNK_NUMBERS: u64 = 33554432;

// The last chunk all of whose bytes have addresses of 32 bits. One more chunk follows it.
const LAST_ADDRESSED: u32 = 16777215;

// The byte of a chunk that is read.
const BYTE: u32 = 31;

// Where the head has its numbers.
const CHUNKS: usize = 6;

const DYNAMIC_LENGTH: usize = 11;

const HEAP_JOURNAL: usize = 12;

const AUX_JOURNAL: usize = 13;

// The chunks that are looked at: 0 and 1 of pages 66, 67 and 5, and the last two of page 66.
const LOOKED_AT: [(u32, u32); 8] = [
    (66, 0),
    (66, 1),
    (67, 0),
    (67, 1),
    (5, 0),
    (5, 1),
    (66, LAST_ADDRESSED),
    (66, LAST_ADDRESSED + 1),
];

// The bytes of chunk k of a page, if it is held: the page's entry, and the slot whose key names entry and chunk.
fn held<'a>(parts: Parts<'a>, page: u32, k: u32) -> Option<&'a [u8]> {
    let chunks = *parts.words.get(CHUNKS)? as usize;
    let (slots, entries) = parts.keys.split_at_checked(chunks)?;
    let entry = entries.iter().position(|key| *key == u64::from(page) + 1)?;
    let first = (entry as u64).checked_mul(CHUNK_NUMBERS)?;
    let key = first.checked_add(u64::from(k) + 1)?;
    let slot = slots.iter().position(|other| *other == key)?;
    parts.bytes.chunks_exact(CHUNK).nth(slot)
}

// Whether the lookup shows the bytes of a chunk as the scan finds them, and one of them is read so.
fn shows_chunk(parts: Parts<'_>, page: u32, k: u32) -> bool {
    let zeros = [0; CHUNK];
    let bytes = held(parts, page, k).unwrap_or(&zeros);
    let Ok(part) = parts.chunk(PageId(page), k, &zeros) else {
        return false;
    };
    part == bytes && (k > LAST_ADDRESSED || shows_byte(parts, page, k, bytes))
}

// Whether one byte of a chunk is read as one of these.
fn shows_byte(parts: Parts<'_>, page: u32, k: u32, bytes: &[u8]) -> bool
    requires { k ≤ LAST_ADDRESSED }
{
    let address = Address(k * CHUNK as u32 + BYTE);
    parts.byte(PageId(page), address).ok() == bytes.get(BYTE as usize).copied()
}

// Whether what is read from the head is the head's.
fn shows_head(parts: Parts<'_>) -> bool {
    let (Ok(length), Ok(Marks { heap, aux })) = (parts.dynamic_length(), parts.snapshot()) else {
        return false;
    };
    let numbers = [
        (DYNAMIC_LENGTH, length),
        (HEAP_JOURNAL, heap),
        (AUX_JOURNAL, aux),
    ];
    numbers.iter().all(|(place, number)| parts.words.get(*place).copied()
        == Some(u64::from(*number)))
}

// Whether a memory answers reads as its parts of the buffers say.
pub fn shows(parts: Parts<'_>) -> bool {
    shows_head(parts)
        && LOOKED_AT
            .iter()
            .all(|(page, k)| shows_chunk(parts, *page, *k))
}
