// Page entries: a page is allocated.
// Stays: the lent buffers are parameters side by side. As a struct of four `&mut`, tried in `pool`, they can't be lent as `&` and `&mut` at once,
// so each body would first take the fields out, and each contract would say that the four references stay the same.
#![tactic(auto)]

ghost use Rattle.std.specs.Prelude.{◌≡◌, false, ◌<◌, ◌≤◌, max, length, get_or, set};
ghost use Rattle.index.specs.Index.{used_count};
ghost use Rattle.store.specs.Mem.{mem, head_length, dynamic_length_place, dynamic_length};
ghost use Rattle.formed.specs.Parts.{entry_of};
ghost use Rattle.view.specs.View.{setting_of, view_of};
ghost use Rattle.view.specs.Does.{Shows};
ghost use Rattle.view.specs.Inner.{listing, ListAsks};
ghost use Rattle.pages.specs.Entry.{EntryAsks, EntryTaken};

use page_ids::PageId;
use store::head;

// Raises the dynamic length to `least`, if it is below.
fn raise(words: &mut [u64], least: u64)
    requires { head_length ≤ length words.old }
    ensures { words.new ≡ set words.old dynamic_length_place (max (dynamic_length words.old) least) }
{
    words[head::DYNAMIC_LENGTH] = words[head::DYNAMIC_LENGTH].max(least);
}

// The index of some free entry of a table that has one: `guess`, if that is free. The contract does not say which.
fn free_place(keys: &[u64], guess: usize) -> usize
    requires { used_count keys.now < length keys.now }
    ensures { (result < length keys.now) × (get_or keys.now result 0 ≡ 0) }
{
    if guess < keys.len() && keys[guess] == 0 {
        return guess;
    }
    keys.iter().position(|k| *k == 0).unwrap_or(0)
}

// Gives a free entry to a dynamic page that has none, makes the dynamic length reach past its group, and returns the entry.
fn take_entry(keys: &mut [u64], order: &mut [u32], words: &mut [u64], page: PageId) -> usize
    requires { EntryAsks keys.old order.old words.old page.0 }
    ensures { EntryTaken page.0 result keys.old order.old words.old keys.new order.new words.new }
{
    let c = words[head::CHUNKS] as usize;
    let n = words[head::ENTRIES] as usize;
    let group = (page.0 as u64 - words[head::BASE]) / words[head::STRIDE];
    let e = free_place(&keys[c..], n);
    index::insert(
        &mut keys[c..],
        &mut order[c..],
        n,
        e as u32,
        page.0 as u64 + 1,
    );
    words[head::ENTRIES] = (n + 1) as u64;
    raise(words, group + 1);
    e
}

// Allocates a page that is not allocated and can be, and returns its entry.
pub fn list_page(
    bytes: &[u8],
    keys: &mut [u64],
    order: &mut [u32],
    words: &mut [u64],
    page: PageId,
) -> usize
    requires { (ListAsks (mem bytes.now keys.old order.old words.old) page.0) × ((view_of (mem bytes.now keys.old order.old words.old)).allocated page.0 ≡ false) }
    ensures shows { Shows (setting_of (mem bytes.now keys.old order.old words.old)) (listing (mem bytes.now keys.old order.old words.old) page.0) (mem bytes.now keys.new order.new words.new) }
    ensures value { result ≡ entry_of (mem bytes.now keys.new order.new words.new) page.0 }
{
    take_entry(keys, order, words, page)
}
