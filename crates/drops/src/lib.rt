// Chunks given back to the pool, and pages no longer allocated.
// Stays: the lent buffers are parameters side by side. As a struct of four `&mut`, tried in `pool`, they can't be lent as `&` and `&mut` at once,
// so each body would first take the fields out, and each contract would say that the four references stay the same.
#![tactic(auto)]

ghost use Rattle.std.specs.Prelude.{◌≡◌};
ghost use Rattle.store.specs.Mem.{mem, entries};
ghost use Rattle.view.specs.View.{setting_of, view_of};
ghost use Rattle.view.specs.Steps.{freed};
ghost use Rattle.view.specs.Does.{Shows};
ghost use Rattle.drops.specs.Drops.{dropping, unlisting, EntriesBut, PageAsks, DropAsks, UnlistAsks};

use page_ids::PageId;
use store::head;

// Drops the chunks from lo up to, but without, hi of a dynamic page. Their keys follow each other.
pub fn drop_chunks(
    bytes: &mut [u8],
    keys: &mut [u64],
    order: &mut [u32],
    words: &mut [u64],
    page: PageId,
    lo: u32,
    hi: u32,
)
    requires { DropAsks (mem bytes.old keys.old order.old words.old) page.0 lo hi }
    ensures { let m = mem bytes.old keys.old order.old words.old in let m' = mem bytes.new keys.new order.new words.new in (Shows (setting_of m) (dropping (setting_of m) page.0 lo hi (view_of m)) m') × (entries m' ≡ entries m) }
{
    let e = store::entry_of(keys, order, words, page);
    let from = store::key_of(e, lo as u64);
    let to = store::key_of(e, hi as u64);
    pool::give(bytes, keys, order, words, from, to);
}

// Frees the entry of a dynamic page that holds no chunk.
fn unlist_page(bytes: &[u8], keys: &mut [u64], order: &mut [u32], words: &mut [u64], page: PageId)
    requires { UnlistAsks (mem bytes.now keys.old order.old words.old) page.0 }
    ensures { let m = mem bytes.now keys.old order.old words.old in let m' = mem bytes.now keys.new order.new words.new in (Shows (setting_of m) (unlisting (setting_of m) page.0 (view_of m)) m') × EntriesBut page.0 m m' }
{
    let c = words[head::CHUNKS] as usize;
    let n = words[head::ENTRIES] as usize;
    let r = index::rank_below(&keys[c..], &order[c..], n, page.0 as u64 + 1);
    index::remove(&mut keys[c..], &mut order[c..], n, r, r + 1);
    words[head::ENTRIES] = (n - 1) as u64;
}

// Frees a dynamic page: every chunk that it holds, and its entry.
pub fn free_page(
    bytes: &mut [u8],
    keys: &mut [u64],
    order: &mut [u32],
    words: &mut [u64],
    page: PageId,
)
    requires { PageAsks (mem bytes.old keys.old order.old words.old) page.0 }
    ensures { let m = mem bytes.old keys.old order.old words.old in let m' = mem bytes.new keys.new order.new words.new in (Shows (setting_of m) (freed (setting_of m) page.0 (view_of m)) m') × EntriesBut page.0 m m' }
{
    drop_chunks(bytes, keys, order, words, page, 0, store::LAST_CHUNK + 1);
    unlist_page(bytes, keys, order, words, page);
}
