// Which refusal a write to a well-formed memory or an allocation in it gets, if any: the tests in the order of 01's table.
// How much of a range of chunks is known to be held, and the rank of the next one.
// Stays: the lent buffers are parameters side by side. A struct of four `&` is no plainer: callers have `&mut` buffers in hand and would build it for each call, most functions read two or three of the four, and an `ensures` would say `memory.entry.keys.now` for `keys.now`.
#![tactic(auto)]

ghost use Rattle.std.specs.Prelude.{◌≡◌, true, false, ℕ, ◌+◌, ◌-◌, ◌/◌, ◌%◌, ◌<◌, ◌≤◌, ◌^◌, ltb, length, drop};
ghost use Rattle.index.specs.Index.{seek};
ghost use Rattle.outcome.specs.Outcome.{status_of};
ghost use Rattle.view.specs.Calls.{first_refusal};
ghost use Rattle.page_ids.specs.Decode.{page_of, decoded};
ghost use Rattle.store.specs.Mem.{mem, head_length, layout_of, slot_count};
ghost use Rattle.store.specs.Keys.{last_chunk, key_of};
ghost use Rattle.store.specs.Find.{slot_for, Findable};
ghost use Rattle.formed.specs.Pages.{journal_count};
ghost use Rattle.formed.specs.Parts.{entry_of, slot_of_chunk};
ghost use Rattle.formed.specs.Formed.{narrow};
ghost use Rattle.formed.specs.WellFormed.{WellFormed};
ghost use Rattle.view.specs.View.{setting_of, view_of};
ghost use Rattle.view.specs.Steps.{missing, touched_count, aligned_count};
ghost use Rattle.view.specs.Checks.{overfull, capacity_checks, word_write_checks, allocate_checks};
ghost use Rattle.checks.specs.Located.{Locates};

use outcome::Refusal;
use page_ids::{Address, DecodedPage, PageId};
use store::head;

// How many parts of SIZE bytes n bytes at an address touch, of which there is one at least.
fn parts<const SIZE: u64>(address: Address, n: usize) -> u64
    requires { (address.0 + n < 2 ^ 64) × (0 < n) × (0 < SIZE) }
    ensures { result ≡ (address.0 + (n - 1)) / SIZE - address.0 / SIZE + 1 }
{
    let first = address.0 as u64;
    (first + (n as u64 - 1)) / SIZE - first / SIZE + 1
}

// How many chunks n bytes at an address touch.
pub fn touched(address: Address, n: usize) -> u64
    requires { address.0 + n < 2 ^ 64 }
    ensures { result ≡ touched_count address.0 n }
{
    if n == 0 {
        return 0;
    }
    parts::<256>(address, n)
}

// How many aligned words they touch.
pub fn aligned(address: Address, n: usize) -> u64
    requires { address.0 + n < 2 ^ 64 }
    ensures { result ≡ aligned_count address.0 n }
{
    if n == 0 {
        return 0;
    }
    parts::<32>(address, n)
}

pub fn is_allocated(bytes: &[u8], keys: &[u64], order: &[u32], words: &[u64], page: PageId) -> bool
    requires { WellFormed (mem bytes.now keys.now order.now words.now) }
    ensures { result ≡ (view_of (mem bytes.now keys.now order.now words.now)).allocated page.0 }
{
    let e = store::entry_of(keys, order, words, page);
    (e as u64) < words[head::PAGES] + head::FIXED_PAGES
}

// ---- a range of chunks is located
// The slot of a chunk whose key is k: `guess`, if that slot has the key, or the one that a hint names. An answer of at least the number of slots says nothing.
// Stays: the number of slots stands for none, as in `store`.
fn known_slot(
    keys: &[u64],
    order: &[u32],
    words: &[u64],
    page: PageId,
    chunk: u32,
    k: u64,
    guess: usize,
) -> usize
    requires { (Findable keys.now order.now words.now) × (k ≡ key_of (seek (drop (slot_count words.now) keys.now) (page.0 + 1)) chunk) }
    ensures { result < slot_count words.now → result ≡ slot_for keys.now words.now page.0 chunk }
{
    if store::has_key(keys, words, guess, k) {
        return guess;
    }
    store::hinted(keys, order, words, page, chunk)
}

// How many of the chunks first, .., first + count - 1 of the page at entry e are known to be held before the first that is not. The contract does not say that there are no more.
fn known_run(
    keys: &[u64],
    order: &[u32],
    words: &[u64],
    page: PageId,
    e: usize,
    first: u32,
    count: u32,
) -> u32
    requires { (Findable keys.now order.now words.now) × (e ≡ seek (drop (slot_count words.now) keys.now) (page.0 + 1)) × (e ≤ 4100) × (first + count ≤ last_chunk + 1) }
    ensures { (result ≤ count) × ((x : ℕ) → first ≤ x → x < first + result → slot_for keys.now words.now page.0 x < slot_count words.now) }
{
    let c = words[head::CHUNKS] as usize;
    let k = store::key_of(e, first as u64);
    // Chunks that follow each other often have slots that do.
    let mut guess = c;
    for i in 0..count {
        let s = known_slot(keys, order, words, page, first + i, k + i as u64, guess);
        if c <= s {
            return i;
        }
        guess = s + 1;
    }
    count
}

// What is known of a range of chunks: those before `chunk` are held. `rank` is the rank of the key of `chunk`, unless the range ends there.
// Stays: `rank` means nothing where the range ends. An Option is no plainer: its callers know whether the range ends there from `chunk`.
#[derive(Clone, Copy)]
pub struct Located {
    pub chunk: u32,
    pub rank: usize,
}

// Finds how many of the chunks first, .., first + count - 1 of the page at entry e are known to be held, by the next slots and hints, and searches once for the rank of the first that is not.
pub fn locate(
    keys: &[u64],
    order: &[u32],
    words: &[u64],
    page: PageId,
    e: usize,
    first: u32,
    count: u32,
) -> Located
    requires { (Findable keys.now order.now words.now) × (e ≡ seek (drop (slot_count words.now) keys.now) (page.0 + 1)) × (e ≤ 4100) × (first + count ≤ last_chunk + 1) }
    ensures { Locates keys.now order.now words.now page.0 first count result.chunk result.rank }
{
    let known = known_run(keys, order, words, page, e, first, count);
    let chunk = first + known;
    if known == count {
        return Located {
            chunk: chunk,
            rank: 0,
        };
    }
    let at = store::rank_of(keys, order, words, store::key_of(e, chunk as u64));
    Located {
        chunk: chunk,
        rank: at,
    }
}

// ---- the tests
// 10: more of the chunks first, .., first + count - 1 are missing than the pool has. `located` says what is known of them, and the page's entry is e.
// Where the pool has as many chunks as are not known to be held, the missing ones are not counted. The count stops as soon as too many are missing.
fn short_of_chunks(
    bytes: &[u8],
    keys: &[u64],
    order: &[u32],
    words: &[u64],
    page: PageId,
    e: usize,
    located: Located,
    first: u32,
    count: u32,
) -> bool
    requires well_formed { (WellFormed (mem bytes.now keys.now order.now words.now)) × (e ≡ entry_of (mem bytes.now keys.now order.now words.now) page.0) × (first + count ≤ last_chunk + 1) }
    requires locates { Locates keys.now order.now words.now page.0 first count located.chunk located.rank }
    ensures { result ≡ ltb (view_of (mem bytes.now keys.now order.now words.now)).pool (missing ((view_of (mem bytes.now keys.now order.now words.now)).held page.0) first count) }
{
    let known = located.chunk - first;
    if pool::has_pooled(words, (count - known) as u64) {
        return false;
    }
    let pool = pool::pool_count(words);
    let c = words[head::CHUNKS] as usize;
    let k = store::key_of(e, first as u64);
    let mut at = located.rank;
    let mut missing: u64 = 0;
    for i in known..count {
        if store::slot_at_rank(keys, order, words, at, k + i as u64) < c {
            at += 1;
        } else {
            if missing == pool {
                return true;
            }
            missing += 1;
        }
    }
    false
}

// 10 of one chunk: no slot holds it, and the pool has none. Its slot is s, or the number of slots.
fn short_of_chunk(
    bytes: &[u8],
    keys: &[u64],
    order: &[u32],
    words: &[u64],
    page: PageId,
    chunk: u32,
    s: usize,
) -> bool
    requires { (WellFormed (mem bytes.now keys.now order.now words.now)) × (s ≡ slot_of_chunk (mem bytes.now keys.now order.now words.now) page.0 chunk) }
    ensures { result ≡ ltb (view_of (mem bytes.now keys.now order.now words.now)).pool (missing ((view_of (mem bytes.now keys.now order.now words.now)).held page.0) chunk 1) }
{
    s >= words[head::CHUNKS] as usize && !pool::has_pooled(words, 1)
}

// 11: w more words do not fit the page's journal.
pub fn short_of_words(
    bytes: &[u8],
    keys: &[u64],
    order: &[u32],
    words: &[u64],
    page: PageId,
    w: u64,
) -> bool
    requires { (WellFormed (mem bytes.now keys.now order.now words.now)) × (w ≤ 2 ^ 60) }
    ensures { result ≡ overfull (setting_of (mem bytes.now keys.now order.now words.now)) (view_of (mem bytes.now keys.now order.now words.now)) page.0 w journal_count }
{
    let j = formed::journals::journal_of(words, page);
    if j >= head::JOURNAL_COUNT {
        return false;
    }
    words[head::JOURNAL_WORDS] < words[head::JOURNALS + j] + w
}

// 9 and 10 of a page that is not allocated. Such a page holds no chunk, so all of `count` are missing. It has no journal, so it is never refused with 11.
pub fn unallocated_refusal(
    bytes: &[u8],
    keys: &[u64],
    order: &[u32],
    words: &[u64],
    page: PageId,
    count: u64,
) -> Result<(), Refusal>
    requires { (WellFormed (mem bytes.now keys.now order.now words.now)) × ((view_of (mem bytes.now keys.now order.now words.now)).allocated page.0 ≡ false) }
    ensures { (first w : ℕ) → status_of result ≡ first_refusal (capacity_checks (setting_of (mem bytes.now keys.now order.now words.now)) (view_of (mem bytes.now keys.now order.now words.now)) page.0 first count w) }
{
    if words[head::ENTRIES] == words[head::PAGES] + head::FIXED_PAGES {
        return Err(Refusal::NoPage);
    }
    if !pool::has_pooled(words, count) {
        return Err(Refusal::NoChunk);
    }
    Ok(())
}

// 10 and 11 of an allocated page. Its entry is e, and `located` says what is known of its chunks first, .., first + count - 1.
pub fn allocated_refusal(
    bytes: &[u8],
    keys: &[u64],
    order: &[u32],
    words: &[u64],
    page: PageId,
    e: usize,
    located: Located,
    first: u32,
    count: u32,
    w: u64,
) -> Result<(), Refusal>
    requires well_formed { (WellFormed (mem bytes.now keys.now order.now words.now)) × (e ≡ entry_of (mem bytes.now keys.now order.now words.now) page.0) × (first + count ≤ last_chunk + 1) }
    requires locates { (Locates keys.now order.now words.now page.0 first count located.chunk located.rank) × ((view_of (mem bytes.now keys.now order.now words.now)).allocated page.0 ≡ true) × (w ≤ 2 ^ 60) }
    ensures { status_of result ≡ first_refusal (capacity_checks (setting_of (mem bytes.now keys.now order.now words.now)) (view_of (mem bytes.now keys.now order.now words.now)) page.0 first count w) }
{
    if short_of_chunks(bytes, keys, order, words, page, e, located, first, count) {
        return Err(Refusal::NoChunk);
    }
    if short_of_words(bytes, keys, order, words, page, w) {
        return Err(Refusal::NoJournal);
    }
    Ok(())
}

// What a page id stands for in the memory's layout.
pub fn decode(words: &[u64], page: PageId) -> Option<DecodedPage>
    requires { (head_length ≤ length words.now) × (narrow words.now ≡ true) }
    ensures { page_of result ≡ decoded (layout_of words.now) page.0 }
{
    page_ids::decode_page(formed::head::layout_of(words), page)
}

// The refusal that a word write would get. Nothing is written: a store whose value is too wide for the hook gets this refusal, or else 15.
pub fn word_refusal(
    bytes: &[u8],
    keys: &[u64],
    order: &[u32],
    words: &[u64],
    page: PageId,
    address: Address,
) -> Result<(), Refusal>
    requires { WellFormed (mem bytes.now keys.now order.now words.now) }
    ensures { status_of result ≡ first_refusal (word_write_checks (setting_of (mem bytes.now keys.now order.now words.now)) (view_of (mem bytes.now keys.now order.now words.now)) page.0 address.0) }
{
    if decode(words, page).is_none() {
        return Err(Refusal::Undecodable);
    }
    let first = address.0 / 256;
    let count = touched(address, 32);
    let e = store::entry_of(keys, order, words, page);
    if (e as u64) >= words[head::PAGES] + head::FIXED_PAGES {
        return unallocated_refusal(bytes, keys, order, words, page, count);
    }
    let located = locate(keys, order, words, page, e, first, count as u32);
    allocated_refusal(
        bytes,
        keys,
        order,
        words,
        page,
        e,
        located,
        first,
        count as u32,
        1,
    )
}

// A word write in one chunk of an allocated page: 10 and 11 are left. The chunk's slot is s, or the number of slots where none holds it.
pub fn one_chunk_refusal(
    bytes: &[u8],
    keys: &[u64],
    order: &[u32],
    words: &[u64],
    page: PageId,
    address: Address,
    s: usize,
) -> Result<(), Refusal>
    requires well_formed { (WellFormed (mem bytes.now keys.now order.now words.now)) × (s ≡ slot_of_chunk (mem bytes.now keys.now order.now words.now) page.0 (address.0 / 256)) }
    requires page_value { ((view_of (mem bytes.now keys.now order.now words.now)).allocated page.0 ≡ true) × (address.0 % 256 ≤ 224) }
    ensures { status_of result ≡ first_refusal (word_write_checks (setting_of (mem bytes.now keys.now order.now words.now)) (view_of (mem bytes.now keys.now order.now words.now)) page.0 address.0) }
{
    if short_of_chunk(bytes, keys, order, words, page, address.0 / 256, s) {
        return Err(Refusal::NoChunk);
    }
    if short_of_words(bytes, keys, order, words, page, 1) {
        return Err(Refusal::NoJournal);
    }
    Ok(())
}

// An allocation with n bytes of contents.
pub fn allocate_refusal(
    bytes: &[u8],
    keys: &[u64],
    order: &[u32],
    words: &[u64],
    page: PageId,
    n: usize,
) -> Result<(), Refusal>
    requires { WellFormed (mem bytes.now keys.now order.now words.now) }
    ensures { status_of result ≡ first_refusal (allocate_checks (setting_of (mem bytes.now keys.now order.now words.now)) (view_of (mem bytes.now keys.now order.now words.now)) page.0 n) }
{
    let Some(decoded) = decode(words, page) else {
        return Err(Refusal::Undecodable);
    };
    if page_ids::is_fixed(Some(decoded)) {
        return Err(Refusal::Fixed);
    }
    if is_allocated(bytes, keys, order, words, page) {
        return Err(Refusal::Allocated);
    }
    let count = touched(Address(0), n);
    unallocated_refusal(bytes, keys, order, words, page, count)
}
