// Chunks: the missing ones of a range, taken from the pool.
// Stays: the lent buffers are parameters side by side. As a struct of four `&mut`, tried in `pool`, they can't be lent as `&` and `&mut` at once,
// so each body would first take the fields out, and each contract would say that the four references stay the same.
#![tactic(auto)]

ghost use Rattle.std.specs.Prelude.{◌≡◌, ◌+◌, ◌<◌};
ghost use Rattle.store.specs.Keys.{key_of};
ghost use Rattle.store.specs.Mem.{mem, slot_count, entries};
ghost use Rattle.store.specs.Indexed.{Ranked};
ghost use Rattle.formed.specs.Parts.{entry_of, slot_of_chunk};
ghost use Rattle.view.specs.View.{setting_of, view_of};
ghost use Rattle.view.specs.Does.{Shows};
ghost use Rattle.view.specs.Inner.{holding, HoldAsks};

use page_ids::PageId;

// The page, which is allocated, holds the chunk, whose key k has the rank `at`. The answer is the chunk's slot. The pages keep their entries, and the rank of the key k + 1 is at + 1.
pub fn hold_at(
    bytes: &[u8],
    keys: &mut [u64],
    order: &mut [u32],
    words: &mut [u64],
    page: PageId,
    chunk: u32,
    at: usize,
    k: u64,
) -> usize
    requires hold_asks { HoldAsks (mem bytes.now keys.old order.old words.old) page.0 chunk 1 }
    requires k_value { (k ≡ key_of (entry_of (mem bytes.now keys.old order.old words.old) page.0) chunk) × (Ranked keys.old order.old words.old k at) }
    ensures shows { Shows (setting_of (mem bytes.now keys.old order.old words.old)) (holding page.0 chunk 1 (view_of (mem bytes.now keys.old order.old words.old))) (mem bytes.now keys.new order.new words.new) }
    ensures words_unchanged { entries (mem bytes.now keys.new order.new words.new) ≡ entries (mem bytes.now keys.old order.old words.old) }
    ensures value { (result ≡ slot_of_chunk (mem bytes.now keys.new order.new words.new) page.0 chunk) × (result < slot_count words.old) }
    ensures ranked { Ranked keys.new order.new words.new (k + 1) (at + 1) }
{
    let s = pool::hold(keys, order, words, at, k);
    store::learn(order, words, page, chunk, s);
    s
}

// The page, which is allocated, holds the chunks first, .., first + count - 1. The key k of the first has the rank `at`. Each next key has the next rank, so no other rank has to be searched for.
pub fn hold_chunks(
    bytes: &[u8],
    keys: &mut [u64],
    order: &mut [u32],
    words: &mut [u64],
    page: PageId,
    first: u32,
    count: u32,
    at: usize,
    k: u64,
)
    requires hold_asks { HoldAsks (mem bytes.now keys.old order.old words.old) page.0 first count }
    requires k_value { (k ≡ key_of (entry_of (mem bytes.now keys.old order.old words.old) page.0) first) × (Ranked keys.old order.old words.old k at) }
    ensures { Shows (setting_of (mem bytes.now keys.old order.old words.old)) (holding page.0 first count (view_of (mem bytes.now keys.old order.old words.old))) (mem bytes.now keys.new order.new words.new) }
{
    for i in 0..count {
        hold_at(
            bytes,
            keys,
            order,
            words,
            page,
            first + i,
            at + i as usize,
            k + i as u64,
        );
    }
}
