// Slots of chunks, in the lent buffers of a memory: keys, the place of the pool, the lookup of chunks and pages, and hints.
// Stays: the lent buffers are parameters side by side. A struct of four `&` is no plainer: callers have `&mut` buffers in hand and would build it for each call, most functions read two or three of the four, and an `ensures` would say `memory.entry.keys.now` for `keys.now`.
#![tactic(auto)]

ghost use Rattle.std.specs.Prelude.{◌≡◌, ◌+◌, ◌/◌, ◌^◌, ◌<◌, ◌≤◌, true, length, take, drop, slice_index};
ghost use Rattle.index.specs.Index.{seek};
ghost use Rattle.store.specs.Keys.{last_chunk, key_of, key_entry, key_chunk};
ghost use Rattle.store.specs.Find.{slot_at_entry, slot_for, Findable, Names, Follows, HintLearnt};
ghost use Rattle.store.specs.Mem.{head_length, fixed_count, slot_count, page_count, pool_length, pool_place};
ghost use Rattle.store.specs.Indexed.{Indexed, Ranked, PagesIndexed};

use page_ids::{Address, PageId};

pub mod head;

// ---- keys
// A key is the entry of a page times this factor, plus the chunk number, plus 1: keys of one page follow each other, and no key is 0.
const KEY_FACTOR: u64 = 33554432;

// The highest chunk number: the word at the last address ends in that chunk.
pub const LAST_CHUNK: u32 = 16777216;

// The key of a chunk of the page at an entry.
pub fn key_of(entry: usize, chunk: u64) -> u64
    requires { (entry ≤ 69636) × (chunk ≤ 2 ^ 32) }
    ensures { result ≡ key_of entry chunk }
{
    entry as u64 * KEY_FACTOR + chunk + 1
}

// The entry of a key.
pub fn key_entry(key: u64) -> usize
    requires { 0 < key }
    ensures { result ≡ key_entry key }
{
    ((key - 1) / KEY_FACTOR) as usize
}

// The chunk number of a key.
pub fn key_chunk(key: u64) -> u64
    requires { 0 < key }
    ensures { result ≡ key_chunk key }
{
    (key - 1) % KEY_FACTOR
}

// ---- the pool
// How many slots have their bits in one word.
const POOL_BITS: u64 = bits::WORD_BITS as u64;

// How many 64-bit words the pool of c slots has.
pub fn pool_length(c: u64) -> u64
    requires { c ≤ 65536 }
    ensures { result ≡ pool_length c }
{
    (c + POOL_BITS - 1) / POOL_BITS
}

// Where the pool's words begin.
pub fn pool_place(words: &[u64]) -> usize
    requires { (slot_count words.now ≤ 65536) × (head_length + pool_length (slot_count words.now) ≤ length words.now) }
    ensures { result ≡ pool_place words.now }
{
    words.len() - pool_length(words[head::CHUNKS]) as usize
}

// ---- lookup
// Stays: the number of slots, or of entries, stands for none. An Option is no plainer: callers hand the number on without a branch, since the key of an entry that is not there is no slot's,
// and a hint's answer, which may be any number, is tested by one comparison.
// The slot of the key k, or the number of slots where none has it.
fn slot_of(keys: &[u64], order: &[u32], words: &[u64], k: u64) -> usize
    requires { (Indexed keys.now order.now words.now) × (0 < k) }
    ensures { result ≡ seek (take (slot_count words.now) keys.now) k }
{
    let c = words[head::CHUNKS] as usize;
    index::find(&keys[0..c], &order[0..c], words[head::HELD] as usize, k)
}

// True only where slot s has the key k. Of false the contract says nothing.
pub fn has_key(keys: &[u64], words: &[u64], s: usize, k: u64) -> bool
    requires { (head_length ≤ length words.now) × (slot_count words.now ≤ length keys.now) × (slot_count words.now ≤ 65536) }
    ensures { result ≡ true → (s < slot_count words.now) × (slice_index keys.now s ≡ k) }
{
    if s >= words[head::CHUNKS] as usize {
        return false;
    }
    keys[s] == k
}

// The rank of the key k among those of the held slots, whether or not a slot has it.
pub fn rank_of(keys: &[u64], order: &[u32], words: &[u64], k: u64) -> usize
    requires { Indexed keys.now order.now words.now }
    ensures { Ranked keys.now order.now words.now k result }
{
    let c = words[head::CHUNKS] as usize;
    index::rank(&keys[0..c], &order[0..c], words[head::HELD] as usize, k)
}

// The slot of the key k, whose rank is `at`, or the number of slots where none has it.
pub fn slot_at_rank(keys: &[u64], order: &[u32], words: &[u64], at: usize, k: u64) -> usize
    requires { (Indexed keys.now order.now words.now) × (Ranked keys.now order.now words.now k at) × (0 < k) }
    ensures { result ≡ seek (take (slot_count words.now) keys.now) k }
{
    let c = words[head::CHUNKS] as usize;
    index::place_at(&keys[0..c], &order[0..c], words[head::HELD] as usize, at, k)
}

// The slot of a chunk of the page at an entry, or the number of slots where none holds it.
pub fn slot_at_entry(keys: &[u64], order: &[u32], words: &[u64], entry: usize, chunk: u64) -> usize
    requires { (Indexed keys.now order.now words.now) × (entry ≤ 69636) × (chunk ≤ 2 ^ 32) }
    ensures { result ≡ slot_at_entry keys.now words.now entry chunk }
{
    slot_of(keys, order, words, key_of(entry, chunk))
}

// The entry of a page, or the number of entries where none lists it.
pub fn entry_of(keys: &[u64], order: &[u32], words: &[u64], page: PageId) -> usize
    requires { PagesIndexed keys.now order.now words.now }
    ensures { result ≡ seek (drop (slot_count words.now) keys.now) (page.0 + 1) }
{
    let c = words[head::CHUNKS] as usize;
    index::find(
        &keys[c..],
        &order[c..],
        words[head::ENTRIES] as usize,
        page.0 as u64 + 1,
    )
}

// ---- hints
// The order ends in hints: where a chunk was found last. Hints are untrusted: every use tests them, so WELL FORMED does not constrain them.

// All ones up to the highest bit of c: at most 2·c - 1.
fn mask(c: u64) -> u64 {
    let a = c | (c >> 1);
    let b = a | (a >> 2);
    let d = b | (b >> 4);
    let e = d | (d >> 8);
    e | (e >> 16)
}

// The factor that spreads the pages over the hints. With few other odd factors of 16 bits do fewer hints of up to 100 pages share a place.
const HINT_FACTOR: u64 = 45449;

// The place of the hint for a chunk of a page. The last place of the order has the mask.
fn hint_place(order: &[u32], page: PageId, chunk: u32) -> usize
    requires { 0 < length order.now }
{
    let n = order.len();
    let x = (page.0 as u64 * HINT_FACTOR + chunk as u64) & order[n - 1] as u64;
    std::num::wrapping_sub_usize(std::num::wrapping_sub_usize(n, x as usize), 2)
}

// True only where slot s holds this chunk of this page. Of false the contract says nothing.
fn is_place(keys: &[u64], words: &[u64], s: usize, page: PageId, chunk: u32) -> bool
    requires { (head_length ≤ length words.now) × (slot_count words.now ≤ length keys.now) × (slot_count words.now ≤ 65536) × (length keys.now ≤ 69636) }
    ensures { result ≡ true → Names keys.now words.now s page.0 chunk }
{
    let c = words[head::CHUNKS] as usize;
    if s >= c {
        return false;
    }
    // the entry times the factor, if it is the key of this chunk; else no multiple of the factor, or too large for an entry
    let above = std::num::wrapping_sub_u64(keys[s], chunk as u64 + 1);
    if above % KEY_FACTOR != 0 {
        return false;
    }
    let e = (above / KEY_FACTOR) as usize;
    if e >= keys.len() - c {
        return false;
    }
    keys[c + e] == page.0 as u64 + 1
}

// The slot of a chunk of a page, if a hint names it. Any other answer is at least the number of slots, and says nothing.
pub fn hinted(keys: &[u64], order: &[u32], words: &[u64], page: PageId, chunk: u32) -> usize
    requires { Findable keys.now order.now words.now }
    ensures { result < slot_count words.now → result ≡ slot_for keys.now words.now page.0 chunk }
{
    let h = hint_place(order, page, chunk);
    if h >= order.len() {
        return words[head::CHUNKS] as usize;
    }
    let s = order[h] as usize;
    if is_place(keys, words, s, page, chunk) {
        return s;
    }
    words[head::CHUNKS] as usize
}

// The slot of a chunk of a page, or the number of slots where none holds it.
pub fn place_of(keys: &[u64], order: &[u32], words: &[u64], page: PageId, chunk: u32) -> usize
    requires { (Findable keys.now order.now words.now) × (chunk ≤ last_chunk) }
    ensures { result ≡ slot_for keys.now words.now page.0 chunk }
{
    let s = hinted(keys, order, words, page, chunk);
    if s < words[head::CHUNKS] as usize {
        return s;
    }
    let e = entry_of(keys, order, words, page);
    slot_at_entry(keys, order, words, e, chunk as u64)
}

// The slot after s, if it holds the next chunk of the same page. Any other answer is at least the number of slots, and says nothing.
// A page that grew without others between has its chunks in slots that follow each other.
pub fn next_to(keys: &[u64], words: &[u64], s: usize) -> usize
    requires { (head_length ≤ length words.now) × (slot_count words.now ≤ length keys.now) × (slot_count words.now ≤ 65536) × (s ≤ 65536) }
    ensures { result < slot_count words.now → Follows keys.now s result }
{
    let c = words[head::CHUNKS] as usize;
    let next = s + 1;
    if next >= c {
        return c;
    }
    if keys[next] == std::num::wrapping_add_u64(keys[s], 1) {
        return next;
    }
    c
}

// The slot of the last chunk of the word at an address, whose first chunk's slot is s, if a hint names it. Any other answer is at least the number of slots, and says nothing.
pub fn hinted_last(
    keys: &[u64],
    order: &[u32],
    words: &[u64],
    page: PageId,
    address: Address,
    s: usize,
) -> usize
    requires { (Findable keys.now order.now words.now) × (s ≡ slot_for keys.now words.now page.0 (address.0 / 256)) }
    ensures { result < slot_count words.now → result ≡ slot_for keys.now words.now page.0 ((address.0 + 31) / 256) }
{
    if address.0 % 256 <= 224 {
        return s;
    }
    hinted(keys, order, words, page, address.0 / 256 + 1)
}

// The same, by the next slot, or else by a hint, or else by search.
pub fn place_of_last(
    keys: &[u64],
    order: &[u32],
    words: &[u64],
    page: PageId,
    address: Address,
    s: usize,
) -> usize
    requires { (Findable keys.now order.now words.now) × (s ≡ slot_for keys.now words.now page.0 (address.0 / 256)) }
    ensures { result ≡ slot_for keys.now words.now page.0 ((address.0 + 31) / 256) }
{
    if address.0 % 256 <= 224 {
        return s;
    }
    let next = next_to(keys, words, s);
    if next < words[head::CHUNKS] as usize {
        return next;
    }
    place_of(keys, order, words, page, address.0 / 256 + 1)
}

// Notes where a chunk of a page was found, for the next search.
pub fn learn(order: &mut [u32], words: &[u64], page: PageId, chunk: u32, s: usize)
    requires head_length_in_bounds { (head_length ≤ length words.now) × (slot_count words.now ≤ 65536) × (page_count words.now ≤ 4096) }
    requires fixed_count_in_bounds { (slot_count words.now + page_count words.now + fixed_count < length order.old) × (s ≤ 65536) }
    ensures { HintLearnt order.old words.now order.new }
{
    let n = order.len();
    order[n - 1] = (mask(words[head::CHUNKS]) % 4294967296) as u32;
    let h = hint_place(order, page, chunk);
    if h >= n {
        return;
    }
    if (h as u64) < words[head::CHUNKS] + words[head::PAGES] + head::FIXED_PAGES {
        return;
    }
    order[h] = s as u32;
}
