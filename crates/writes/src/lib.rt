// Writes and allocations. A call tests first that the memory is well formed (refusal 3); `on_formed` has what is left of it.
// vm2: the writing half of `Heaps`.
// Stays: the lent buffers are parameters side by side. The C interface lends four, and `Went` (lists/specs), by which the theorem `Demand` takes a call's arguments, has them by their places.
// Stays: each write makes the test of the memory itself. A function that makes it and calls a closure is no plainer: it would be handed the buffers, some as `&` and some as `&mut`.
#![tactic(auto)]

ghost use Rattle.std.specs.Prelude.{[]};
ghost use Rattle.outcome.specs.Outcome.{answer_outcome};
ghost use Rattle.word.specs.Value.{value};
ghost use Rattle.store.specs.Mem.{mem};
ghost use Rattle.view.specs.Calls.{Call, CallDoes, nothing};

use outcome::Refusal;
use page_ids::{Address, PageId};
use word::Word;

pub mod on_formed;

// Writes a word at any address; a bootloader page journals the old word first.
pub fn write_u256(
    bytes: &mut [u8],
    keys: &mut [u64],
    order: &mut [u32],
    words: &mut [u64],
    page: PageId,
    address: Address,
    word: Word,
) -> Result<(), Refusal>
    ensures { CallDoes (mem bytes.old keys.old order.old words.old) (Call.WriteWord page.0 address.0 (value word.limbs)) (answer_outcome nothing result) (mem bytes.new keys.new order.new words.new) }
{
    if !formed::well_formed(bytes, keys, order, words) {
        return Err(Refusal::NotFormed);
    }
    on_formed::write_u256(bytes, keys, order, words, page, address, word)
}

// Writes bytes, as many as there are; a bootloader page journals each aligned word that they touch.
pub fn write_bytes(
    bytes: &mut [u8],
    keys: &mut [u64],
    order: &mut [u32],
    words: &mut [u64],
    page: PageId,
    start: Address,
    src: &[u8],
) -> Result<(), Refusal>
    ensures { CallDoes (mem bytes.old keys.old order.old words.old) (Call.WriteBytes page.0 start.0 src.now) (answer_outcome nothing result) (mem bytes.new keys.new order.new words.new) }
{
    if !formed::well_formed(bytes, keys, order, words) {
        return Err(Refusal::NotFormed);
    }
    on_formed::write_bytes(bytes, keys, order, words, page, start, src)
}

// Allocates a page with these contents from address 0.
pub fn allocate_with_content_at(
    bytes: &mut [u8],
    keys: &mut [u64],
    order: &mut [u32],
    words: &mut [u64],
    page: PageId,
    contents: &[u8],
) -> Result<(), Refusal>
    ensures { CallDoes (mem bytes.old keys.old order.old words.old) (Call.Allocate page.0 contents.now) (answer_outcome nothing result) (mem bytes.new keys.new order.new words.new) }
{
    if !formed::well_formed(bytes, keys, order, words) {
        return Err(Refusal::NotFormed);
    }
    on_formed::allocate_with_content_at(bytes, keys, order, words, page, contents)
}

// Allocates an empty page.
pub fn allocate_at(
    bytes: &mut [u8],
    keys: &mut [u64],
    order: &mut [u32],
    words: &mut [u64],
    page: PageId,
) -> Result<(), Refusal>
    ensures { CallDoes (mem bytes.old keys.old order.old words.old) (Call.Allocate page.0 []) (answer_outcome nothing result) (mem bytes.new keys.new order.new words.new) }
{
    if !formed::well_formed(bytes, keys, order, words) {
        return Err(Refusal::NotFormed);
    }
    on_formed::allocate_at(bytes, keys, order, words, page)
}
