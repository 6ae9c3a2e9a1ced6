// Pages freed, shrunk to a window, and cut off by truncation. A call tests first that the memory is well formed (refusal 3); `on_formed` has what is left of it.
// Stays: the lent buffers are parameters side by side. The C interface lends four, and `Went` (lists/specs), by which the theorem `Demand` takes a call's arguments, has them by their places.
// Stays: each call makes the test of the memory itself. A function that makes it and calls a closure is no plainer: it would be handed the buffers, some as `&` and some as `&mut`.
#![tactic(auto)]

ghost use Rattle.outcome.specs.Outcome.{answer_outcome};
ghost use Rattle.store.specs.Mem.{mem};
ghost use Rattle.view.specs.Calls.{Call, nothing, CallDoes};

use outcome::Refusal;
use page_ids::{Address, PageId};

pub mod on_formed;

// Frees a page. vm2: `deallocate`.
pub fn deallocate(
    bytes: &mut [u8],
    keys: &mut [u64],
    order: &mut [u32],
    words: &mut [u64],
    page: PageId,
) -> Result<(), Refusal>
    ensures { CallDoes (mem bytes.old keys.old order.old words.old) (Call.Free page.0) (answer_outcome nothing result) (mem bytes.new keys.new order.new words.new) }
{
    if !formed::well_formed(bytes, keys, order, words) {
        return Err(Refusal::NotFormed);
    }
    on_formed::deallocate(bytes, keys, order, words, page)
}

// Shrinks a page to the chunks that a window overlaps. A page that is fixed, undecodable or unallocated stays as it is. vm2: `compact_to_window`.
pub fn compact_to_window(
    bytes: &mut [u8],
    keys: &mut [u64],
    order: &mut [u32],
    words: &mut [u64],
    page: PageId,
    start: Address,
    length: u32,
) -> Result<(), Refusal>
    ensures { CallDoes (mem bytes.old keys.old order.old words.old) (Call.Window page.0 start.0 length) (answer_outcome nothing result) (mem bytes.new keys.new order.new words.new) }
{
    if !formed::well_formed(bytes, keys, order, words) {
        return Err(Refusal::NotFormed);
    }
    on_formed::compact_to_window(bytes, keys, order, words, page, start, length)
}

// Frees every dynamic page of the groups from `len` up, which becomes the dynamic length. vm2: `truncate_dynamic_to`.
pub fn truncate_dynamic_to(
    bytes: &mut [u8],
    keys: &mut [u64],
    order: &mut [u32],
    words: &mut [u64],
    len: u64,
) -> Result<(), Refusal>
    ensures { CallDoes (mem bytes.old keys.old order.old words.old) (Call.Truncate len) (answer_outcome nothing result) (mem bytes.new keys.new order.new words.new) }
{
    if !formed::well_formed(bytes, keys, order, words) {
        return Err(Refusal::NotFormed);
    }
    on_formed::truncate_dynamic_to(bytes, keys, order, words, len)
}
