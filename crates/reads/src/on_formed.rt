// Each read of a memory that is known to be well formed: what is left of the call after the test.
// Stays: the lent buffers are parameters side by side. A struct of four `&` is no plainer here: both callers have the four in hand, as C lends them, and `read_steps` takes four.
ghost use Rattle.std.specs.Prelude.{◌≡◌, ◌&&◌, [], ◌-◌, eqb, length};
ghost use Rattle.outcome.specs.Outcome.{unit_outcome};
ghost use Rattle.word.specs.Value.{value, big_endian};
ghost use Rattle.store.specs.Mem.{mem};
ghost use Rattle.formed.specs.Formed.{zeros};
ghost use Rattle.formed.specs.WellFormed.{WellFormed};
ghost use Rattle.view.specs.View.{view_of};
ghost use Rattle.view.specs.Steps.{run, padded};
ghost use Rattle.view.specs.Checks.{on_memory, partial_checks, range_checks, lookup_checks};
ghost use Rattle.view.specs.Calls.{shown_of};
ghost use Rattle.reads.specs.Calls.{partial_outcome, RangeDoes};

use crate::{Marks, PartialWord};
use outcome::Refusal;
use page_ids::{Address, PageId};
use store::head;
use word::Word;

// How far `end` lies past `start`: 0 where it does not.
fn span(start: Address, end: Address) -> u32
    ensures { result ≡ end.0 - start.0 }
{
    end.0.saturating_sub(start.0)
}

// Whether a block is 256 zero bytes.
fn is_zero_block(block: &[u8]) -> bool
    ensures { result ≡ (eqb (length block.now) 256 && zeros block.now) }
{
    block.len() == 256 && formed::slot::all_zero(block)
}

// ---- the calls

pub fn read_u256(
    bytes: &[u8],
    keys: &[u64],
    order: &[u32],
    words: &[u64],
    page: PageId,
    address: Address,
) -> Word
    requires { WellFormed (mem bytes.now keys.now order.now words.now) }
    ensures { value result.limbs ≡ big_endian (run (view_of (mem bytes.now keys.now order.now words.now)) page.0 address.0 32) }
{
    read_steps::read_word(bytes, keys, order, words, page, address)
}

pub fn read_u256_partially(
    bytes: &[u8],
    keys: &[u64],
    order: &[u32],
    words: &[u64],
    page: PageId,
    start: Address,
    end: Address,
) -> Result<PartialWord, Refusal>
    requires { WellFormed (mem bytes.now keys.now order.now words.now) }
    ensures { let m = mem bytes.now keys.now order.now words.now in partial_outcome result ≡ on_memory m (partial_checks start.0 end.0) (big_endian (padded (run (view_of m) page.0 start.0 (end.0 - start.0))), end.0 - start.0) }
{
    let n = span(start, end);
    if n > 32 {
        return Err(Refusal::Range);
    }
    let read = read_steps::read_padded(bytes, keys, order, words, page, start, n as usize);
    Ok(PartialWord {
        word: word::from_big_endian(read),
        bytes_read: n,
    })
}

pub fn read_range_big_endian(
    bytes: &[u8],
    keys: &[u64],
    order: &[u32],
    words: &[u64],
    page: PageId,
    start: Address,
    end: Address,
    output: &mut [u8],
) -> Result<(), Refusal>
    requires { WellFormed (mem bytes.now keys.now order.now words.now) }
    ensures { let m = mem bytes.now keys.now order.now words.now in RangeDoes (on_memory m (range_checks start.0 end.0 (length output.old)) tt) (unit_outcome result) (run (view_of m) page.0 start.0 (end.0 - start.0)) output.old output.new }
{
    let n = span(start, end);
    if output.len() != n as usize {
        return Err(Refusal::Range);
    }
    read_steps::read_into(bytes, keys, order, words, page, start, output);
    Ok(())
}

pub fn read_byte(
    bytes: &[u8],
    keys: &[u64],
    order: &[u32],
    words: &[u64],
    page: PageId,
    address: Address,
) -> u8
    requires { WellFormed (mem bytes.now keys.now order.now words.now) }
    ensures { result ≡ (view_of (mem bytes.now keys.now order.now words.now)).bytes page.0 address.0 }
{
    read_steps::byte_at(bytes, keys, order, words, page, address)
}

pub fn dynamic_len(bytes: &[u8], keys: &[u64], order: &[u32], words: &[u64]) -> u32
    requires { WellFormed (mem bytes.now keys.now order.now words.now) }
    ensures { result ≡ (view_of (mem bytes.now keys.now order.now words.now)).dynamic_length }
{
    words[head::DYNAMIC_LENGTH] as u32
}

pub fn snapshot(bytes: &[u8], keys: &[u64], order: &[u32], words: &[u64]) -> Marks
    requires { WellFormed (mem bytes.now keys.now order.now words.now) }
    ensures { let v = view_of (mem bytes.now keys.now order.now words.now) in (result.heap ≡ length (v.journal 0)) × (result.aux ≡ length (v.journal 1)) }
{
    Marks {
        heap: words[head::HEAP_JOURNAL] as u32,
        aux: words[head::AUX_JOURNAL] as u32,
    }
}

pub fn chunk<'a>(
    bytes: &'a [u8],
    keys: &[u64],
    order: &[u32],
    words: &[u64],
    page: PageId,
    number: u32,
    block: &'a [u8],
) -> &'a [u8]
    requires { WellFormed (mem bytes.now keys.now order.now words.now) }
    ensures { let m = mem bytes.now keys.now order.now words.now in result.now ≡ shown_of m page.0 number block.now }
{
    if !is_zero_block(block) {
        return &block[0..0];
    }
    read_steps::chunk_of(bytes, keys, order, words, page, number, block)
}

pub fn chunk_check(
    bytes: &[u8],
    keys: &[u64],
    order: &[u32],
    words: &[u64],
    page: PageId,
    number: u32,
    block: &[u8],
) -> Result<(), Refusal>
    requires { WellFormed (mem bytes.now keys.now order.now words.now) }
    ensures { let m = mem bytes.now keys.now order.now words.now in unit_outcome result ≡ on_memory m (lookup_checks block.now) tt }
{
    if !is_zero_block(block) {
        return Err(Refusal::Range);
    }
    Ok(())
}
