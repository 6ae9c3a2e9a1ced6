// Reads of a lent memory. A call tests first that the memory is well formed (refusal 3); `on_formed` has what is left of it.
// vm2: the reading half of `Heaps`.
// Stays: the lent buffers are parameters side by side. The C interface lends four, and `Went` (lists/specs), by which the theorem `Demand` takes a call's arguments, has them by their places.
// Stays: each read makes the test of the memory itself. A function that makes it and calls a closure is no plainer: it would be handed the buffers, some as `&` and some as `&mut`.
#![tactic(auto)]

ghost use Rattle.std.specs.Prelude.{◌≡◌, [], ◌-◌, length};
ghost use Rattle.outcome.specs.Outcome.{unit_outcome};
ghost use Rattle.word.specs.Value.{value, big_endian};
ghost use Rattle.store.specs.Mem.{mem};
ghost use Rattle.view.specs.View.{view_of};
ghost use Rattle.view.specs.Steps.{run, padded};
ghost use Rattle.view.specs.Checks.{on_memory, partial_checks, range_checks, lookup_checks};
ghost use Rattle.view.specs.Calls.{shown_of};
ghost use Rattle.reads.specs.Calls.{word_outcome, partial_outcome, byte_outcome, length_outcome, snapshot_outcome, RangeDoes};

use outcome::Refusal;
use page_ids::{Address, PageId};
use word::Word;

pub mod on_formed;

// A word of the bytes of a range, and how many they are: these lead it, and zeros follow.
#[derive(Clone, Copy)]
pub struct PartialWord {
    pub word: Word,
    pub bytes_read: u32,
}

// The lengths of the journals: what a rollback goes back to.
#[derive(Clone, Copy, Debug, PartialEq, Eq)]
pub struct Marks {
    pub heap: u32,
    pub aux: u32,
}

// ---- the calls

pub fn read_u256(
    bytes: &[u8],
    keys: &[u64],
    order: &[u32],
    words: &[u64],
    page: PageId,
    address: Address,
) -> Result<Word, Refusal>
    ensures { let m = mem bytes.now keys.now order.now words.now in word_outcome result ≡ on_memory m [] (big_endian (run (view_of m) page.0 address.0 32)) }
{
    if !formed::well_formed(bytes, keys, order, words) {
        return Err(Refusal::NotFormed);
    }
    Ok(on_formed::read_u256(bytes, keys, order, words, page, address))
}

// A word of the bytes from `start` to `end`, which lead it, and how many they are; zeros follow.
// Every byte of the range counts, held or not. A reversed range has none, and more than 32 are refused with 8.
pub fn read_u256_partially(
    bytes: &[u8],
    keys: &[u64],
    order: &[u32],
    words: &[u64],
    page: PageId,
    start: Address,
    end: Address,
) -> Result<PartialWord, Refusal>
    ensures { let m = mem bytes.now keys.now order.now words.now in partial_outcome result ≡ on_memory m (partial_checks start.0 end.0) (big_endian (padded (run (view_of m) page.0 start.0 (end.0 - start.0))), end.0 - start.0) }
{
    if !formed::well_formed(bytes, keys, order, words) {
        return Err(Refusal::NotFormed);
    }
    on_formed::read_u256_partially(bytes, keys, order, words, page, start, end)
}

// The bytes from `start` to `end`, into an output of their number.
pub fn read_range_big_endian(
    bytes: &[u8],
    keys: &[u64],
    order: &[u32],
    words: &[u64],
    page: PageId,
    start: Address,
    end: Address,
    output: &mut [u8],
) -> Result<(), Refusal>
    ensures { let m = mem bytes.now keys.now order.now words.now in RangeDoes (on_memory m (range_checks start.0 end.0 (length output.old)) tt) (unit_outcome result) (run (view_of m) page.0 start.0 (end.0 - start.0)) output.old output.new }
{
    if !formed::well_formed(bytes, keys, order, words) {
        return Err(Refusal::NotFormed);
    }
    on_formed::read_range_big_endian(bytes, keys, order, words, page, start, end, output)
}

pub fn read_byte(
    bytes: &[u8],
    keys: &[u64],
    order: &[u32],
    words: &[u64],
    page: PageId,
    address: Address,
) -> Result<u8, Refusal>
    ensures { let m = mem bytes.now keys.now order.now words.now in byte_outcome result ≡ on_memory m [] ((view_of m).bytes page.0 address.0) }
{
    if !formed::well_formed(bytes, keys, order, words) {
        return Err(Refusal::NotFormed);
    }
    Ok(on_formed::read_byte(bytes, keys, order, words, page, address))
}

// 01's dynamic length: above every group of an allocated page; a truncation alone lowers it.
pub fn dynamic_len(bytes: &[u8], keys: &[u64], order: &[u32], words: &[u64]) -> Result<u32, Refusal>
    ensures { let m = mem bytes.now keys.now order.now words.now in length_outcome result ≡ on_memory m [] (view_of m).dynamic_length }
{
    if !formed::well_formed(bytes, keys, order, words) {
        return Err(Refusal::NotFormed);
    }
    Ok(on_formed::dynamic_len(bytes, keys, order, words))
}

pub fn snapshot(bytes: &[u8], keys: &[u64], order: &[u32], words: &[u64]) -> Result<Marks, Refusal>
    ensures { let m = mem bytes.now keys.now order.now words.now in snapshot_outcome result ≡ on_memory m [] (length ((view_of m).journal 0), length ((view_of m).journal 1)) }
{
    if !formed::well_formed(bytes, keys, order, words) {
        return Err(Refusal::NotFormed);
    }
    Ok(on_formed::snapshot(bytes, keys, order, words))
}

// The bytes of a chunk, held or not; an empty part where the lookup is refused. `chunk_check` says why.
// The contract leaves open which of the two slices a part of zeros belongs to.
// Stays: an empty part is the refusal, and `chunk_check` says which, as 01 has the lookup (`shown_of`, `Rules.lookup`).
pub fn chunk<'a>(
    bytes: &'a [u8],
    keys: &[u64],
    order: &[u32],
    words: &[u64],
    page: PageId,
    number: u32,
    block: &'a [u8],
) -> &'a [u8]
    ensures { let m = mem bytes.now keys.now order.now words.now in result.now ≡ shown_of m page.0 number block.now }
{
    if !formed::well_formed(bytes, keys, order, words) {
        return &block[0..0];
    }
    on_formed::chunk(bytes, keys, order, words, page, number, block)
}

pub fn chunk_check(
    bytes: &[u8],
    keys: &[u64],
    order: &[u32],
    words: &[u64],
    page: PageId,
    number: u32,
    block: &[u8],
) -> Result<(), Refusal>
    ensures { let m = mem bytes.now keys.now order.now words.now in unit_outcome result ≡ on_memory m (lookup_checks block.now) tt }
{
    if !formed::well_formed(bytes, keys, order, words) {
        return Err(Refusal::NotFormed);
    }
    on_formed::chunk_check(bytes, keys, order, words, page, number, block)
}
