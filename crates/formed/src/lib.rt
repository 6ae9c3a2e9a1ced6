// Whether a lent memory is well formed: 01's sentence and the encoding's own rules, tested in one order.
// Stays: the lent buffers are parameters side by side. A struct of four `&` is no plainer: callers have `&mut` buffers in hand and would build it for each call, most functions read two or three of the four, and an `ensures` would say `memory.entry.keys.now` for `keys.now`.
#![tactic(auto)]

ghost use Rattle.std.specs.Prelude.{◌≡◌, true, ◌&&◌, ◌≤◌, length, take, drop};
ghost use Rattle.index.specs.Index.{indexed};
ghost use Rattle.store.specs.Mem.{mem, held_now, in_use, holders, entries, slot_order, page_order};
ghost use Rattle.formed.specs.WellFormed.{Lengths};
ghost use Rattle.formed.specs.Formed.{narrow, contents, well_formed};

pub mod entry;
pub mod head;
pub mod journals;
pub mod pool_words;
pub mod slot;

// Whether the slots and the entries are indexed. Both tables are cut at c; n slots are held, u entries are in use.
fn tables_ok(keys: &[u64], order: &[u32], c: usize, n: usize, u: usize) -> bool
    requires { (c ≤ length keys.now) × (c ≤ length order.now) }
    ensures { result ≡ (indexed (take c keys.now) (take c order.now) n && indexed (drop c keys.now) (drop c order.now) u) }
{
    index::index_ok(&keys[..c], &order[..c], n) && index::index_ok(&keys[c..], &order[c..], u)
}

// Whether the tables, the pages, the slots, the pool and the journals are right, in buffers of the right lengths.
#[tactic(auto, unfolding(crate::specs::Formed::contents))]
fn parts_ok(bytes: &[u8], keys: &[u64], order: &[u32], words: &[u64]) -> bool
    requires lengths { Lengths (mem bytes.now keys.now order.now words.now) }
    requires words_value { narrow words.now ≡ true }
    ensures { let m = mem bytes.now keys.now order.now words.now in result ≡ ((indexed (holders m) (slot_order m) (held_now words.now) && indexed (entries m) (page_order m) (in_use words.now)) && contents m) }
{
    let c = words[store::head::CHUNKS] as usize;
    let (holders, entries) = keys.split_at(c);
    let held = words[store::head::HELD] as usize;
    let used = words[store::head::ENTRIES] as usize;
    tables_ok(keys, order, c, held, used)
        && entry::pages_ok(entries, words)
        && slot::slots_ok(entries, holders, &bytes[..256 * c])
        && pool_words::pool_ok(holders, words)
        && journals::journals_ok(holders, words)
}

// Whether a lent memory is well formed.
#[tactic(auto, unfolding(crate::specs::Formed::well_formed))]
pub fn well_formed(bytes: &[u8], keys: &[u64], order: &[u32], words: &[u64]) -> bool
    ensures { result ≡ well_formed (mem bytes.now keys.now order.now words.now) }
{
    head::sized_ok(bytes, keys, order, words)
        && head::head_ok(words)
        && parts_ok(bytes, keys, order, words)
}
