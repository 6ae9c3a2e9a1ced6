// Opens a memory in lent buffers, whatever they hold.
// Stays: the lent buffers are parameters side by side. As a struct of four `&mut`, tried in `pool`, they can't be lent as `&` and `&mut` at once,
// so each body would first take the fields out, and each contract would say that the four references stay the same.
#![tactic(auto)]

ghost use Rattle.std.specs.Prelude.{◌≡◌, ◌≤◌, length};
ghost use Rattle.outcome.specs.Outcome.{answer_outcome};
ghost use Rattle.store.specs.Mem.{mem, head_length, fixed_count, pool_length};
ghost use Rattle.view.specs.View.{setting_of};
ghost use Rattle.view.specs.Steps.{empty_view, opened};
ghost use Rattle.view.specs.Calls.{nothing, OpenDoes};
ghost use Rattle.view.specs.Does.{Shows};
ghost use Rattle.page_ids.specs.declared.Layout.{Layout};
ghost use Rattle.opening.specs.Opening.{setting_from, PoolFull, headed, sizes_right, OpenAsks, FixedAsks, FirstPages, opening_outcome, CalldataAsks};

use outcome::Refusal;
use page_ids::{Address, Layout, PageId};
use store::head;

// How many chunks, dynamic pages and words of each journal a memory has room for.
#[derive(Clone, Copy)]
pub struct Capacity {
    pub chunks: u32,
    pub pages: u32,
    pub journal_words: u32,
}

// Every slot is pooled: the bits of all of them are set, and no other. Of the words before the pool's the contract says nothing.
fn fill_pool(words: &mut [u64], chunks: u32)
    requires { (chunks ≤ 65536) × (pool_length chunks ≤ length words.old) }
    ensures { PoolFull chunks words.new }
{
    let at = words.len() - store::pool_length(chunks as u64) as usize;
    bits::fill(&mut words[at..], chunks as usize);
}

// The head: layout and counts, no slot held, four entries in use, dynamic length 0, no word in a journal, and no word of the pool to skip.
fn write_head(words: &mut [u64], layout: Layout, capacity: Capacity)
    requires { head_length ≤ length words.old }
    ensures { words.new ≡ headed (setting_from layout capacity.chunks capacity.pages capacity.journal_words) words.old }
{
    words[head::STATIC_MEMORY] = layout.static_memory.0 as u64;
    words[head::CALLDATA] = layout.calldata.0 as u64;
    words[head::BOOTLOADER_HEAP] = layout.bootloader_heap.0 as u64;
    words[head::BOOTLOADER_AUX] = layout.bootloader_aux.0 as u64;
    words[head::BASE] = layout.base.0 as u64;
    words[head::STRIDE] = layout.stride as u64;
    words[head::CHUNKS] = capacity.chunks as u64;
    words[head::PAGES] = capacity.pages as u64;
    words[head::JOURNAL_WORDS] = capacity.journal_words as u64;
    words[head::HELD] = 0;
    words[head::ENTRIES] = head::FIXED_PAGES;
    words[head::DYNAMIC_LENGTH] = 0;
    words[head::HEAP_JOURNAL] = 0;
    words[head::AUX_JOURNAL] = 0;
    words[head::POOL_SKIP] = 0;
}

// Lists the four fixed pages, whose ids the head has, as entries 0 to 3.
fn list_fixed(entries: &mut [u64], order: &mut [u32], words: &[u64])
    requires { FixedAsks entries.old order.old words.now }
    ensures { FirstPages words.now entries.new order.new fixed_count }
{
    for i in 0..head::FIXED_ENTRIES {
        index::insert(entries, order, i, i as u32, words[i] + 1);
    }
}

// Makes the buffers a memory in which all is zero and every chunk pooled. The journals' old bytes and numbers stay: nothing reads them.
fn start(
    bytes: &mut [u8],
    keys: &mut [u64],
    order: &mut [u32],
    words: &mut [u64],
    layout: Layout,
    capacity: Capacity,
)
    requires { OpenAsks (setting_from layout capacity.chunks capacity.pages capacity.journal_words) (mem bytes.old keys.old order.old words.old) }
    ensures { let s = setting_from layout capacity.chunks capacity.pages capacity.journal_words in Shows s (empty_view s) (mem bytes.new keys.new order.new words.new) }
{
    let c = capacity.chunks as usize;
    let end = 256 * c;
    bytes[..end].fill(0);
    keys.fill(0);
    fill_pool(words, capacity.chunks);
    write_head(words, layout, capacity);
    list_fixed(&mut keys[c..], &mut order[c..], words);
}

// Whether the counts are in bounds, and the lent buffers as long as they ask.
fn sizes_right(bytes: &[u8], keys: &[u64], order: &[u32], words: &[u64], capacity: Capacity) -> bool
    ensures { (l : Layout) → result ≡ sizes_right (setting_from l capacity.chunks capacity.pages capacity.journal_words) (mem bytes.now keys.now order.now words.now) }
{
    formed::head::lengths_ok(
        bytes.len(),
        keys.len(),
        order.len(),
        words.len(),
        capacity.chunks as u64,
        capacity.pages as u64,
        capacity.journal_words as u64,
    )
}

// The refusal that an opening gets, if any.
fn open_refusal(
    bytes: &[u8],
    keys: &[u64],
    order: &[u32],
    words: &[u64],
    layout: Layout,
    capacity: Capacity,
    calldata: &[u8],
) -> Result<(), Refusal>
    ensures { let s = setting_from layout capacity.chunks capacity.pages capacity.journal_words in answer_outcome nothing result ≡ opening_outcome s (mem bytes.now keys.now order.now words.now) (length calldata.now) }
{
    if page_ids::bad_layout(layout) {
        return Err(Refusal::Layout);
    }
    if !sizes_right(bytes, keys, order, words, capacity) {
        return Err(Refusal::Sizes);
    }
    let c = capacity.chunks as usize;
    if 256 * c < calldata.len() {
        return Err(Refusal::NoChunk);
    }
    Ok(())
}

// Puts calldata on its page, in a memory just started.
fn put_calldata(
    bytes: &mut [u8],
    keys: &mut [u64],
    order: &mut [u32],
    words: &mut [u64],
    page: PageId,
    calldata: &[u8],
)
    requires { CalldataAsks (mem bytes.old keys.old order.old words.old) page.0 (length calldata.now) }
    ensures { let s = setting_of (mem bytes.old keys.old order.old words.old) in Shows s (opened s calldata.now) (mem bytes.new keys.new order.new words.new) }
{
    let count = ((calldata.len() + 255) / 256) as u32;
    let e = store::entry_of(keys, order, words, page);
    let k = store::key_of(e, 0);
    let at = store::rank_of(keys, order, words, k);
    chunks::hold_chunks(bytes, keys, order, words, page, 0, count, at, k);
    bodies::write_from(bytes, keys, order, words, page, Address(0), calldata);
}

// Opens a memory: vm2's `Heaps::new`, in lent buffers. Calldata is put on its page; all else is zero.
pub fn open(
    bytes: &mut [u8],
    keys: &mut [u64],
    order: &mut [u32],
    words: &mut [u64],
    layout: Layout,
    capacity: Capacity,
    calldata: &[u8],
) -> Result<(), Refusal>
    ensures { let s = setting_from layout capacity.chunks capacity.pages capacity.journal_words in let m = mem bytes.old keys.old order.old words.old in OpenDoes m s calldata.now (answer_outcome nothing result) (mem bytes.new keys.new order.new words.new) }
{
    open_refusal(bytes, keys, order, words, layout, capacity, calldata)?;
    start(bytes, keys, order, words, layout, capacity);
    let page = layout.calldata;
    put_calldata(bytes, keys, order, words, page, calldata);
    Ok(())
}
