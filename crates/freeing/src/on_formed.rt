// Frees, windows and truncations of a memory that is known to be well formed: what is left of each call after the test.
// Stays: the lent buffers are parameters side by side. As a struct of four `&mut`, tried in `pool`, they can't be lent as `&` and `&mut` at once,
// so each body would first take the fields out, and each contract would say that the four references stay the same.
ghost use Rattle.std.specs.Prelude.{◌≡◌, ◌&&◌};
ghost use Rattle.outcome.specs.Outcome.{answer_outcome, status_of};
ghost use Rattle.store.specs.Mem.{mem, layout_of};
ghost use Rattle.formed.specs.Pages.{dynamic};
ghost use Rattle.formed.specs.WellFormed.{WellFormed};
ghost use Rattle.view.specs.View.{setting_of, view_of};
ghost use Rattle.view.specs.Checks.{free_checks, truncate_checks};
ghost use Rattle.view.specs.Calls.{Call, nothing, first_refusal, CallDoes};

use outcome::Refusal;
use page_ids::{Address, PageId};
use store::head;

// The refusal that a free gets, if any.
fn free_refusal(
    bytes: &[u8],
    keys: &[u64],
    order: &[u32],
    words: &[u64],
    page: PageId,
) -> Result<(), Refusal>
    requires { WellFormed (mem bytes.now keys.now order.now words.now) }
    ensures { let m = mem bytes.now keys.now order.now words.now in status_of result ≡ first_refusal (free_checks (setting_of m) (view_of m) page.0) }
{
    let Some(decoded) = checks::decode(words, page) else {
        return Err(Refusal::Undecodable);
    };
    if page_ids::is_fixed(Some(decoded)) {
        return Err(Refusal::Fixed);
    }
    if !checks::is_allocated(bytes, keys, order, words, page) {
        return Err(Refusal::NotAllocated);
    }
    Ok(())
}

pub fn deallocate(
    bytes: &mut [u8],
    keys: &mut [u64],
    order: &mut [u32],
    words: &mut [u64],
    page: PageId,
) -> Result<(), Refusal>
    requires { WellFormed (mem bytes.old keys.old order.old words.old) }
    ensures { CallDoes (mem bytes.old keys.old order.old words.old) (Call.Free page.0) (answer_outcome nothing result) (mem bytes.new keys.new order.new words.new) }
{
    free_refusal(bytes, keys, order, words, page)?;
    drops::free_page(bytes, keys, order, words, page);
    Ok(())
}

// Whether a page is dynamic and allocated.
fn is_dynamic(bytes: &[u8], keys: &[u64], order: &[u32], words: &[u64], page: PageId) -> bool
    requires { WellFormed (mem bytes.now keys.now order.now words.now) }
    ensures { let m = mem bytes.now keys.now order.now words.now in result ≡ (dynamic (layout_of words.now) page.0 && (view_of m).allocated page.0) }
{
    let Some(decoded) = checks::decode(words, page) else {
        return false;
    };
    !page_ids::is_fixed(Some(decoded)) && checks::is_allocated(bytes, keys, order, words, page)
}

pub fn compact_to_window(
    bytes: &mut [u8],
    keys: &mut [u64],
    order: &mut [u32],
    words: &mut [u64],
    page: PageId,
    start: Address,
    length: u32,
) -> Result<(), Refusal>
    requires { WellFormed (mem bytes.old keys.old order.old words.old) }
    ensures { CallDoes (mem bytes.old keys.old order.old words.old) (Call.Window page.0 start.0 length) (answer_outcome nothing result) (mem bytes.new keys.new order.new words.new) }
{
    if !is_dynamic(bytes, keys, order, words, page) {
        return Ok(());
    }
    free_steps::retain_window(bytes, keys, order, words, page, start, length);
    Ok(())
}

// The refusal that a truncation gets, if any.
fn truncate_refusal(
    bytes: &[u8],
    keys: &[u64],
    order: &[u32],
    words: &[u64],
    len: u64,
) -> Result<(), Refusal>
    requires { WellFormed (mem bytes.now keys.now order.now words.now) }
    ensures { let m = mem bytes.now keys.now order.now words.now in status_of result ≡ first_refusal (truncate_checks (view_of m) len) }
{
    if words[head::DYNAMIC_LENGTH] < len {
        return Err(Refusal::BadLength);
    }
    Ok(())
}

pub fn truncate_dynamic_to(
    bytes: &mut [u8],
    keys: &mut [u64],
    order: &mut [u32],
    words: &mut [u64],
    len: u64,
) -> Result<(), Refusal>
    requires { WellFormed (mem bytes.old keys.old order.old words.old) }
    ensures { CallDoes (mem bytes.old keys.old order.old words.old) (Call.Truncate len) (answer_outcome nothing result) (mem bytes.new keys.new order.new words.new) }
{
    truncate_refusal(bytes, keys, order, words, len)?;
    free_steps::free_groups(bytes, keys, order, words, len);
    free_steps::shorten(bytes, keys, order, words, len);
    Ok(())
}
