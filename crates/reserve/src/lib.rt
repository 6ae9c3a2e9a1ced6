// Makes a page hold chunks: allocates it, if it is not, and takes the chunks that are missing from the pool. The page's entry and one rank are handed on.
// Stays: the lent buffers are parameters side by side. As a struct of four `&mut`, tried in `pool`, they can't be lent as `&` and `&mut` at once,
// so each body would first take the fields out, and each contract would say that the four references stay the same.
#![tactic(auto)]

ghost use Rattle.std.specs.Prelude.{◌≡◌, false, ℕ, ◌+◌, ◌<◌};
ghost use Rattle.store.specs.Mem.{mem, page_count, fixed_count};
ghost use Rattle.formed.specs.Parts.{entry_of};
ghost use Rattle.view.specs.View.{setting_of, view_of};
ghost use Rattle.view.specs.Does.{Shows};
ghost use Rattle.view.specs.Inner.{listing, holding};
ghost use Rattle.checks.specs.Located.{Locates};
ghost use Rattle.reserve.specs.Asks.{PrepareAsks, ReserveAsks, Reserved};

use checks::Located;
use outcome::Refusal;
use page_ids::PageId;
use store::head;

// Allocates a page that is not allocated, and makes it hold the chunks first, .., first + count - 1.
pub fn prepare_unallocated(
    bytes: &[u8],
    keys: &mut [u64],
    order: &mut [u32],
    words: &mut [u64],
    page: PageId,
    first: u32,
    count: u32,
)
    requires { (PrepareAsks (mem bytes.now keys.old order.old words.old) page.0 first count) × ((view_of (mem bytes.now keys.old order.old words.old)).allocated page.0 ≡ false) }
    ensures { Shows (setting_of (mem bytes.now keys.old order.old words.old)) (holding page.0 first count (listing (mem bytes.now keys.old order.old words.old) page.0)) (mem bytes.now keys.new order.new words.new) }
{
    let e = pages::list_page(bytes, keys, order, words, page);
    let k = store::key_of(e, first as u64);
    let at = store::rank_of(keys, order, words, k);
    chunks::hold_chunks(bytes, keys, order, words, page, first, count, at, k);
}

// Makes an allocated page hold the chunks first, .., first + count - 1. Its entry is e, and `located` says what is known of the chunks.
fn prepare_allocated(
    bytes: &[u8],
    keys: &mut [u64],
    order: &mut [u32],
    words: &mut [u64],
    page: PageId,
    e: usize,
    located: Located,
    first: u32,
    count: u32,
)
    requires prepare_asks { (PrepareAsks (mem bytes.now keys.old order.old words.old) page.0 first count) × (e ≡ entry_of (mem bytes.now keys.old order.old words.old) page.0) × (e < page_count words.old + fixed_count) }
    requires locates { Locates keys.old order.old words.old page.0 first count located.chunk located.rank }
    ensures { Shows (setting_of (mem bytes.now keys.old order.old words.old)) (holding page.0 first count (listing (mem bytes.now keys.old order.old words.old) page.0)) (mem bytes.now keys.new order.new words.new) }
{
    let chunk = located.chunk;
    let rest = first + count - chunk;
    if rest == 0 {
        return;
    }
    let k = store::key_of(e, chunk as u64);
    chunks::hold_chunks(
        bytes,
        keys,
        order,
        words,
        page,
        chunk,
        rest,
        located.rank,
        k,
    );
}

// `reserve` for a page that is not allocated. Such a page has no journal, so any number of words will do.
fn reserve_unallocated(
    bytes: &[u8],
    keys: &mut [u64],
    order: &mut [u32],
    words: &mut [u64],
    page: PageId,
    first: u32,
    count: u32,
) -> Result<(), Refusal>
    requires { (ReserveAsks (mem bytes.now keys.old order.old words.old) page.0 first count 0) × ((view_of (mem bytes.now keys.old order.old words.old)).allocated page.0 ≡ false) }
    ensures { (w : ℕ) → Reserved (mem bytes.now keys.old order.old words.old) page.0 first count w result (mem bytes.now keys.new order.new words.new) }
{
    checks::unallocated_refusal(bytes, keys, order, words, page, count as u64)?;
    prepare_unallocated(bytes, keys, order, words, page, first, count);
    Ok(())
}

// `reserve` for an allocated page. Its chunks are located once: the refusals and the step are given what was found.
fn reserve_allocated(
    bytes: &[u8],
    keys: &mut [u64],
    order: &mut [u32],
    words: &mut [u64],
    page: PageId,
    e: usize,
    first: u32,
    count: u32,
    w: u64,
) -> Result<(), Refusal>
    requires { (ReserveAsks (mem bytes.now keys.old order.old words.old) page.0 first count w) × (e ≡ entry_of (mem bytes.now keys.old order.old words.old) page.0) × (e < page_count words.old + fixed_count) }
    ensures { Reserved (mem bytes.now keys.old order.old words.old) page.0 first count w result (mem bytes.now keys.new order.new words.new) }
{
    let located = checks::locate(keys, order, words, page, e, first, count);
    checks::allocated_refusal(bytes, keys, order, words, page, e, located, first, count, w)?;
    prepare_allocated(bytes, keys, order, words, page, e, located, first, count);
    Ok(())
}

// Refuses with 9, 10 or 11, or allocates the page, if it is not, and makes it hold the chunks first, .., first + count - 1. Refusal 11 is about w words in the page's journal.
// The page's entry is e, or e is the number of entries where none lists it.
pub fn reserve(
    bytes: &[u8],
    keys: &mut [u64],
    order: &mut [u32],
    words: &mut [u64],
    page: PageId,
    e: usize,
    first: u32,
    count: u32,
    w: u64,
) -> Result<(), Refusal>
    requires { (ReserveAsks (mem bytes.now keys.old order.old words.old) page.0 first count w) × (e ≡ entry_of (mem bytes.now keys.old order.old words.old) page.0) }
    ensures { Reserved (mem bytes.now keys.old order.old words.old) page.0 first count w result (mem bytes.now keys.new order.new words.new) }
{
    if (e as u64) < words[head::PAGES] + head::FIXED_PAGES {
        return reserve_allocated(bytes, keys, order, words, page, e, first, count, w);
    }
    reserve_unallocated(bytes, keys, order, words, page, first, count)
}
