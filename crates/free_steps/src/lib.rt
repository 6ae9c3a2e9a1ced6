// What a window and a truncation do once they are not refused.
// Stays: the lent buffers are parameters side by side. As a struct of four `&mut`, tried in `pool`, they can't be lent as `&` and `&mut` at once,
// so each body would first take the fields out, and each contract would say that the four references stay the same.
#![tactic(auto)]

ghost use Rattle.std.specs.Prelude.{◌≡◌, ◌+◌, ◌-◌, ◌<◌, ◌≤◌, length};
ghost use Rattle.store.specs.Mem.{mem, head_length, layout_of};
ghost use Rattle.formed.specs.WellFormed.{WellFormed};
ghost use Rattle.view.specs.View.{setting_of, view_of};
ghost use Rattle.view.specs.Steps.{windowed, shortened};
ghost use Rattle.view.specs.Does.{Shows};
ghost use Rattle.drops.specs.Drops.{PageAsks};
ghost use Rattle.free_steps.specs.Freeing.{window_end, emptied, is_from, VisitAsks, Visited, ShortenAsks};

use page_ids::{Address, PageId};
use store::head;

// The first chunk past a window, or past the page.
fn window_end(start: Address, length: u32) -> u32
    ensures { result ≡ window_end start.0 length }
{
    let end = (start.0 / 256) as u64 + checks::touched(start, length as usize);
    if end > store::LAST_CHUNK as u64 {
        return store::LAST_CHUNK + 1;
    }
    end as u32
}

// Drops the chunks below a window and those past it. vm2: `retain_window`.
pub fn retain_window(
    bytes: &mut [u8],
    keys: &mut [u64],
    order: &mut [u32],
    words: &mut [u64],
    page: PageId,
    start: Address,
    length: u32,
)
    requires { PageAsks (mem bytes.old keys.old order.old words.old) page.0 }
    ensures { let m = mem bytes.old keys.old order.old words.old in Shows (setting_of m) (windowed (setting_of m) page.0 start.0 length (view_of m)) (mem bytes.new keys.new order.new words.new) }
{
    let end = window_end(start, length);
    drops::drop_chunks(bytes, keys, order, words, page, 0, start.0 / 256);
    drops::drop_chunks(bytes, keys, order, words, page, end, store::LAST_CHUNK + 1);
}

// Whether an entry's number tells a page of a group from `len` up.
fn is_from(words: &[u64], x: u64, len: u64) -> bool
    requires { (head_length ≤ length words.now) × (0 < (layout_of words.now).stride) × (0 < x → (layout_of words.now).base.0 < x) }
    ensures { result ≡ is_from (layout_of words.now) len x }
{
    x != 0 && len <= (x - 1 - words[head::BASE]) / words[head::STRIDE]
}

// Frees the page of entry e, if it has one and that is of a group from `len` up.
fn free_entry(
    bytes: &mut [u8],
    keys: &mut [u64],
    order: &mut [u32],
    words: &mut [u64],
    e: usize,
    len: u64,
)
    requires { VisitAsks (mem bytes.old keys.old order.old words.old) e }
    ensures { Visited (mem bytes.old keys.old order.old words.old) len e (mem bytes.new keys.new order.new words.new) }
{
    let x = keys[words[head::CHUNKS] as usize + e];
    if is_from(words, x, len) {
        drops::free_page(bytes, keys, order, words, PageId((x - 1) as u32));
    }
}

// Frees every page of the groups from `len` up. It goes by entries, for the groups may be many.
pub fn free_groups(
    bytes: &mut [u8],
    keys: &mut [u64],
    order: &mut [u32],
    words: &mut [u64],
    len: u64,
)
    requires { WellFormed (mem bytes.old keys.old order.old words.old) }
    ensures { let m = mem bytes.old keys.old order.old words.old in Shows (setting_of m) (emptied (setting_of m) len (view_of m)) (mem bytes.new keys.new order.new words.new) }
{
    let pages = words[head::PAGES] as usize;
    for i in 0..pages {
        free_entry(bytes, keys, order, words, head::FIXED_ENTRIES + i, len);
    }
}

// Lowers the dynamic length, where no page past it is allocated.
pub fn shorten(bytes: &[u8], keys: &[u64], order: &[u32], words: &mut [u64], len: u64)
    requires { ShortenAsks (mem bytes.now keys.now order.now words.old) len }
    ensures { let m = mem bytes.now keys.now order.now words.old in Shows (setting_of m) (shortened len (view_of m)) (mem bytes.now keys.now order.now words.new) }
{
    words[head::DYNAMIC_LENGTH] = len;
}
