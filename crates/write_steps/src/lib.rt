// Word writes and byte writes to a well-formed memory, refused or done.
// An allocation with contents, once it is not refused.
// Stays: the lent buffers are parameters side by side. As a struct of four `&mut`, tried in `pool`, they can't be lent as `&` and `&mut` at once,
// so each body would first take the fields out, and each contract would say that the four references stay the same.
#![tactic(auto)]

ghost use Rattle.std.specs.Prelude.{◌≡◌, ◌+◌, ◌%◌, ◌<◌, ◌≤◌, ◌^◌, length};
ghost use Rattle.outcome.specs.Outcome.{answer_outcome};
ghost use Rattle.word.specs.Value.{value, word_bytes};
ghost use Rattle.view.specs.Calls.{Call, CallDoes, nothing, first_refusal};
ghost use Rattle.store.specs.Mem.{mem, layout_of, page_count, fixed_count};
ghost use Rattle.formed.specs.Parts.{entry_of};
ghost use Rattle.formed.specs.WellFormed.{WellFormed};
ghost use Rattle.view.specs.View.{setting_of, view_of};
ghost use Rattle.view.specs.Steps.{aligned_count, aligned_notes, contents_allocated};
ghost use Rattle.view.specs.Checks.{allocate_checks};
ghost use Rattle.view.specs.Does.{Shows};
ghost use Rattle.view.specs.Inner.{journalling};
ghost use Rattle.word_steps.specs.Asks.{JournalAsks, word_put};

use outcome::Refusal;
use page_ids::{Address, PageId};
use store::head;
use word::Word;

// How many addresses a page has.
const ADDRESSES: u64 = 4294967296;

// Each aligned word that n bytes touch is journalled, if their page has a journal.
fn journal_range(
    bytes: &mut [u8],
    keys: &[u64],
    order: &[u32],
    words: &mut [u64],
    page: PageId,
    start: Address,
    n: usize,
)
    requires { (JournalAsks (mem bytes.old keys.now order.now words.old) page.0 start.0 n (aligned_count start.0 n)) × (start.0 + n ≤ 2 ^ 32) }
    ensures { Shows (setting_of (mem bytes.old keys.now order.now words.old)) (journalling (layout_of words.old) page.0 (aligned_notes (view_of (mem bytes.old keys.now order.now words.old)) page.0 start.0 n) (view_of (mem bytes.old keys.now order.now words.old))) (mem bytes.new keys.now order.now words.new) }
{
    let count = checks::aligned(start, n) as u32;
    let j = formed::journals::journal_of(words, page);
    if j < head::JOURNAL_COUNT {
        journal::note_aligned(bytes, keys, order, words, j, start.0 / 32, count);
    }
}

// A word is written to a page that holds its chunks.
fn write_held(
    bytes: &mut [u8],
    keys: &[u64],
    order: &[u32],
    words: &mut [u64],
    page: PageId,
    address: Address,
    word: Word,
)
    requires { JournalAsks (mem bytes.old keys.now order.now words.old) page.0 address.0 32 1 }
    ensures { Shows (setting_of (mem bytes.old keys.now order.now words.old)) (word_put (layout_of words.old) page.0 address.0 (word_bytes (value word.limbs)) (view_of (mem bytes.old keys.now order.now words.old))) (mem bytes.new keys.now order.now words.new) }
{
    let s = store::place_of(keys, order, words, page, address.0 / 256);
    let t = store::place_of_last(keys, order, words, page, address, s);
    word_steps::write_at(bytes, keys, order, words, page, address, s, t, word);
}

// Writes a word wherever it lies. The page's entry is e, or e is the number of entries where none lists it.
fn write_any(
    bytes: &mut [u8],
    keys: &mut [u64],
    order: &mut [u32],
    words: &mut [u64],
    page: PageId,
    address: Address,
    e: usize,
    word: Word,
) -> Result<(), Refusal>
    requires { (WellFormed (mem bytes.old keys.old order.old words.old)) × (e ≡ entry_of (mem bytes.old keys.old order.old words.old) page.0) }
    ensures { CallDoes (mem bytes.old keys.old order.old words.old) (Call.WriteWord page.0 address.0 (value word.limbs)) (answer_outcome nothing result) (mem bytes.new keys.new order.new words.new) }
{
    if checks::decode(words, page).is_none() {
        return Err(Refusal::Undecodable);
    }
    let count = checks::touched(address, 32) as u32;
    reserve::reserve(
        bytes,
        keys,
        order,
        words,
        page,
        e,
        address.0 / 256,
        count,
        1,
    )?;
    write_held(bytes, keys, order, words, page, address, word);
    Ok(())
}

// Writes a word in one chunk of the allocated page at entry e. The rank of the chunk is found once: it tells whether the chunk is held, and where it comes in the order if it has to be taken.
fn write_one(
    bytes: &mut [u8],
    keys: &mut [u64],
    order: &mut [u32],
    words: &mut [u64],
    page: PageId,
    address: Address,
    e: usize,
    word: Word,
) -> Result<(), Refusal>
    requires well_formed { (WellFormed (mem bytes.old keys.old order.old words.old)) × (address.0 % 256 ≤ 224) }
    requires e_value { (e ≡ entry_of (mem bytes.old keys.old order.old words.old) page.0) × (e < page_count words.old + fixed_count) }
    ensures { CallDoes (mem bytes.old keys.old order.old words.old) (Call.WriteWord page.0 address.0 (value word.limbs)) (answer_outcome nothing result) (mem bytes.new keys.new order.new words.new) }
{
    let chunk = address.0 / 256;
    let k = store::key_of(e, chunk as u64);
    let at = store::rank_of(keys, order, words, k);
    let s = store::slot_at_rank(keys, order, words, at, k);
    checks::one_chunk_refusal(bytes, keys, order, words, page, address, s)?;
    let held = chunks::hold_at(bytes, keys, order, words, page, chunk, at, k);
    word_steps::write_at(bytes, keys, order, words, page, address, held, held, word);
    Ok(())
}

// Writes a word by searches. The page's entry is found once.
pub fn write_searched(
    bytes: &mut [u8],
    keys: &mut [u64],
    order: &mut [u32],
    words: &mut [u64],
    page: PageId,
    address: Address,
    word: Word,
) -> Result<(), Refusal>
    requires { WellFormed (mem bytes.old keys.old order.old words.old) }
    ensures { CallDoes (mem bytes.old keys.old order.old words.old) (Call.WriteWord page.0 address.0 (value word.limbs)) (answer_outcome nothing result) (mem bytes.new keys.new order.new words.new) }
{
    let e = store::entry_of(keys, order, words, page);
    if address.0 % 256 > 224 {
        return write_any(bytes, keys, order, words, page, address, e, word);
    }
    if (e as u64) >= words[head::PAGES] + head::FIXED_PAGES {
        return write_any(bytes, keys, order, words, page, address, e, word);
    }
    write_one(bytes, keys, order, words, page, address, e, word)
}

// Writes a word to a well-formed memory: by hints, or else by searches.
pub fn write_word(
    bytes: &mut [u8],
    keys: &mut [u64],
    order: &mut [u32],
    words: &mut [u64],
    page: PageId,
    address: Address,
    word: Word,
) -> Result<(), Refusal>
    requires { WellFormed (mem bytes.old keys.old order.old words.old) }
    ensures { CallDoes (mem bytes.old keys.old order.old words.old) (Call.WriteWord page.0 address.0 (value word.limbs)) (answer_outcome nothing result) (mem bytes.new keys.new order.new words.new) }
{
    match word_steps::write_known(bytes, keys, order, words, page, address, word) {
        Some(written) => written,
        None => write_searched(bytes, keys, order, words, page, address, word),
    }
}

// Writes bytes.
pub fn write_range(
    bytes: &mut [u8],
    keys: &mut [u64],
    order: &mut [u32],
    words: &mut [u64],
    page: PageId,
    start: Address,
    src: &[u8],
) -> Result<(), Refusal>
    requires { WellFormed (mem bytes.old keys.old order.old words.old) }
    ensures { CallDoes (mem bytes.old keys.old order.old words.old) (Call.WriteBytes page.0 start.0 src.now) (answer_outcome nothing result) (mem bytes.new keys.new order.new words.new) }
{
    if checks::decode(words, page).is_none() {
        return Err(Refusal::Undecodable);
    }
    if (src.len() as u64) > ADDRESSES - (start.0 as u64) {
        return Err(Refusal::Range);
    }
    let count = checks::touched(start, src.len()) as u32;
    let notes = checks::aligned(start, src.len());
    let e = store::entry_of(keys, order, words, page);
    reserve::reserve(
        bytes,
        keys,
        order,
        words,
        page,
        e,
        start.0 / 256,
        count,
        notes,
    )?;
    journal_range(bytes, keys, order, words, page, start, src.len());
    bodies::write_from(bytes, keys, order, words, page, start, src);
    Ok(())
}

// The page is allocated with contents from address 0.
pub fn fill(
    bytes: &mut [u8],
    keys: &mut [u64],
    order: &mut [u32],
    words: &mut [u64],
    page: PageId,
    contents: &[u8],
)
    requires { (WellFormed (mem bytes.old keys.old order.old words.old)) × (first_refusal (allocate_checks (setting_of (mem bytes.old keys.old order.old words.old)) (view_of (mem bytes.old keys.old order.old words.old)) page.0 (length contents.now)) ≡ 0) }
    ensures { Shows (setting_of (mem bytes.old keys.old order.old words.old)) (contents_allocated (layout_of words.old) page.0 contents.now (view_of (mem bytes.old keys.old order.old words.old))) (mem bytes.new keys.new order.new words.new) }
{
    let count = checks::touched(Address(0), contents.len()) as u32;
    reserve::prepare_unallocated(bytes, keys, order, words, page, 0, count);
    bodies::write_from(bytes, keys, order, words, page, Address(0), contents);
}
