// What the reads of a well-formed memory are made of.
// Stays: the lent buffers are parameters side by side. As one struct of four `&`, tried, a sequential load of an owned memory takes 1.12 times as long, which misses its bar; and the callers have the four side by side.
#![tactic(auto)]

ghost use Rattle.std.specs.Prelude.{◌≡◌, true, List, ℕ, ◌+◌, ◌*◌, ◌<◌, ◌≤◌, length, get_or, take, IfSome};
ghost use Rattle.word.specs.Value.{value, big_endian};
ghost use Rattle.store.specs.Mem.{mem, head_length, slot_count};
ghost use Rattle.store.specs.Find.{Findable};
ghost use Rattle.formed.specs.Parts.{slot_of_chunk};
ghost use Rattle.formed.specs.Formed.{zeros};
ghost use Rattle.formed.specs.WellFormed.{WellFormed};
ghost use Rattle.view.specs.View.{view_of};
ghost use Rattle.view.specs.Steps.{run, padded};
ghost use Rattle.bodies.specs.Walk.{SlotBefore};
ghost use Rattle.read_steps.specs.Reading.{Put};

use page_ids::{Address, PageId};
use store::head;
use word::Word;

// Puts n zeros to `out` from `to` on.
pub fn fill(out: &mut [u8], to: usize, n: usize)
    requires { to + n ≤ length out.old }
    ensures { Put (λ i. 0) to n out.old out.new }
{
    out[to..to + n].fill(0);
}

// The slot of chunk k of a page, or the number of slots where none holds it; no byte bears on it.
// Stays: the number of slots stands for none, as in `store`.
fn slot_at(keys: &[u64], order: &[u32], words: &[u64], page: PageId, k: usize) -> usize
    requires { Findable keys.now order.now words.now }
    ensures { (b : List ℕ) → result ≡ slot_of_chunk (mem b keys.now order.now words.now) page.0 k }
{
    if k > store::LAST_CHUNK as usize {
        return words[head::CHUNKS] as usize;
    }
    store::place_of(keys, order, words, page, k as u32)
}

// The same, by its hint first: a read of many chunks then makes no call for a chunk that a hint knows. Its last line is a call of `slot_at`, since the compiler then leaves the slices where they are in the loop of `read_into`.
fn slot_by_hint(keys: &[u64], order: &[u32], words: &[u64], page: PageId, k: usize) -> usize
    requires { Findable keys.now order.now words.now }
    ensures { (b : List ℕ) → result ≡ slot_of_chunk (mem b keys.now order.now words.now) page.0 k }
{
    if k <= store::LAST_CHUNK as usize {
        let s = store::hinted(keys, order, words, page, k as u32);
        if s < words[head::CHUNKS] as usize {
            return s;
        }
    }
    slot_at(keys, order, words, page, k)
}

// The slot of chunk k of a page; `last` is the slot of the chunk before it, or at least the number of slots. Chunks that follow each other often have slots that do.
fn slot_after(
    keys: &[u64],
    order: &[u32],
    words: &[u64],
    page: PageId,
    k: usize,
    last: usize,
) -> usize
    requires findable { Findable keys.now order.now words.now }
    requires last_bound { (last ≤ 65536) × (last < slot_count words.now → SlotBefore keys.now words.now page.0 k last) }
    ensures { (b : List ℕ) → result ≡ slot_of_chunk (mem b keys.now order.now words.now) page.0 k }
{
    if k > store::LAST_CHUNK as usize {
        return words[head::CHUNKS] as usize;
    }
    let s = store::next_to(keys, words, last);
    if s < words[head::CHUNKS] as usize {
        return s;
    }
    slot_by_hint(keys, order, words, page, k)
}

// Reads n bytes from offset r of slot s on to `out` from `to` on. Where s is at least the number of slots they are zeros.
fn read_part(bytes: &[u8], words: &[u64], s: usize, r: usize, n: usize, out: &mut [u8], to: usize)
    requires head_length_in_bounds { (head_length ≤ length words.now) × (slot_count words.now ≤ 65536) × (256 * slot_count words.now ≤ length bytes.now) }
    requires n_bound { (r + n ≤ 256) × (to + n ≤ length out.old) }
    ensures { Put (λ i. get_or (take (256 * slot_count words.now) bytes.now) (256 * s + r + i) 0) to n out.old out.new }
{
    if s >= words[head::CHUNKS] as usize {
        fill(out, to, n);
        return;
    }
    bodies::copy(bytes, 256 * s + r, out, to, n);
}

// Reads the bytes from `start` on, as many as `out` has.
pub fn read_into(
    bytes: &[u8],
    keys: &[u64],
    order: &[u32],
    words: &[u64],
    page: PageId,
    start: Address,
    out: &mut [u8],
)
    requires well_formed { WellFormed (mem bytes.now keys.now order.now words.now) }
    requires out_len_bound { length out.old ≤ 4294967296 }
    ensures { out.new ≡ run (view_of (mem bytes.now keys.now order.now words.now)) page.0 start.0 (length out.old) }
{
    // Stays: the new form is no plainer. The first and the last part may be shorter than a chunk, so the steps are not equal, as `chunks_mut` has them.
    let mut pos: usize = 0;
    let mut last = words[head::CHUNKS] as usize;
    while pos < out.len() {
        let a = start.0 as usize + pos;
        let n = (256 - a % 256).min(out.len() - pos);
        let s = slot_after(keys, order, words, page, a / 256, last);
        read_part(bytes, words, s, a % 256, n, out, pos);
        last = s;
        pos += n;
    }
}

// The word at an address, if hints know its chunks. A leaf: it hands its slices on to nothing that stays a call.
fn known_word(
    bytes: &[u8],
    keys: &[u64],
    order: &[u32],
    words: &[u64],
    page: PageId,
    address: Address,
) -> Option<Word>
    requires { WellFormed (mem bytes.now keys.now order.now words.now) }
    ensures { IfSome result (λ word. value word.limbs ≡ big_endian (run (view_of (mem bytes.now keys.now order.now words.now)) page.0 address.0 32)) }
{
    let c = words[head::CHUNKS] as usize;
    let s = store::hinted(keys, order, words, page, address.0 / 256);
    if s < c {
        let t = store::hinted_last(keys, order, words, page, address, s);
        if t < c {
            let held = bodies::word_in(bytes, s, t, (address.0 % 256) as usize);
            return Some(word::from_big_endian(held));
        }
    }
    None
}

// The word at an address: from the slots that hints know, or else by search.
pub fn read_word(
    bytes: &[u8],
    keys: &[u64],
    order: &[u32],
    words: &[u64],
    page: PageId,
    address: Address,
) -> Word
    requires { WellFormed (mem bytes.now keys.now order.now words.now) }
    ensures { value result.limbs ≡ big_endian (run (view_of (mem bytes.now keys.now order.now words.now)) page.0 address.0 32) }
{
    if let Some(word) = known_word(bytes, keys, order, words, page, address) {
        return word;
    }
    let read = read_padded(bytes, keys, order, words, page, address, 32);
    word::from_big_endian(read)
}

// The 256 bytes of a chunk: a part of `bytes`, or the block of zeros where no slot holds the chunk.
pub fn chunk_of<'a>(
    bytes: &'a [u8],
    keys: &[u64],
    order: &[u32],
    words: &[u64],
    page: PageId,
    number: u32,
    block: &'a [u8],
) -> &'a [u8]
    requires well_formed { WellFormed (mem bytes.now keys.now order.now words.now) }
    requires block_len { (length block.now ≡ 256) × (zeros block.now ≡ true) }
    ensures { result.now ≡ run (view_of (mem bytes.now keys.now order.now words.now)) page.0 (256 * number) 256 }
{
    let s = slot_at(keys, order, words, page, number as usize);
    if s >= words[head::CHUNKS] as usize {
        return block;
    }
    let at = 256 * s;
    let end = at + 256;
    &bytes[at..end]
}

// The n bytes from `start` on, and zeros after them.
pub fn read_padded(
    bytes: &[u8],
    keys: &[u64],
    order: &[u32],
    words: &[u64],
    page: PageId,
    start: Address,
    n: usize,
) -> [u8; 32]
    requires well_formed { WellFormed (mem bytes.now keys.now order.now words.now) }
    requires n_bound { n ≤ 32 }
    ensures { result ≡ padded (run (view_of (mem bytes.now keys.now order.now words.now)) page.0 start.0 n) }
{
    let mut out = [0u8; 32];
    read_into(bytes, keys, order, words, page, start, &mut out[..n]);
    out
}

// The byte at an address.
pub fn byte_at(
    bytes: &[u8],
    keys: &[u64],
    order: &[u32],
    words: &[u64],
    page: PageId,
    address: Address,
) -> u8
    requires { WellFormed (mem bytes.now keys.now order.now words.now) }
    ensures { result ≡ (view_of (mem bytes.now keys.now order.now words.now)).bytes page.0 address.0 }
{
    let s = slot_at(keys, order, words, page, (address.0 / 256) as usize);
    if s >= words[head::CHUNKS] as usize {
        return 0;
    }
    bytes[256 * s + (address.0 % 256) as usize]
}
