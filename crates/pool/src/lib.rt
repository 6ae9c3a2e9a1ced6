// The pool: how many slots it has, the lowest one taken from it, and slots returned to it.
// Stays: the lent buffers are parameters side by side. As a struct of four `&mut`, tried in `pool`, they can't be lent as `&` and `&mut` at once,
// so each body would first take the fields out, and each contract would say that the four references stay the same.
#![tactic(auto)]

ghost use Rattle.std.specs.Prelude.{◌≡◌, ℕ, ◌+◌, ◌*◌, ◌-◌, ◌/◌, ◌%◌, ◌^◌, ◌<◌, ◌≤◌, leb, length, get_or, take};
ghost use Rattle.index.specs.Index.{seek};
ghost use Rattle.bits.specs.Bits.{ones_of, lowest_of};
ghost use Rattle.store.specs.Mem.{slot_count, pool_word, pool_words};
ghost use Rattle.store.specs.Indexed.{Indexed, Ranked};
ghost use Rattle.store.specs.Pool.{PoolPart, Pooling};
ghost use Rattle.pool.specs.Hold.{lacks, unpooled, Taken, Held};
ghost use Rattle.pool.specs.Give.{Zeroed, SlotRun, Wiped, repooled, Repoolable, repooled_all, Released};

use store::head;

// How many slots are pooled.
pub fn pool_count(words: &[u64]) -> u64
    requires { PoolPart words.now }
    ensures { result ≡ ones_of (pool_words words.now) }
{
    let at = store::pool_place(words);
    bits::count(&words[at..], words[head::POOL_SKIP] as usize)
}

// Whether at least n slots are pooled.
pub fn has_pooled(words: &[u64], n: u64) -> bool
    requires { PoolPart words.now }
    ensures { result ≡ leb n (ones_of (pool_words words.now)) }
{
    let at = store::pool_place(words);
    bits::has_ones(&words[at..], words[head::POOL_SKIP] as usize, n)
}

// Takes the lowest pooled slot from the pool, and returns it.
fn take_lowest(words: &mut [u64]) -> usize
    requires { (PoolPart words.old) × (0 < ones_of (pool_words words.old)) }
    ensures { (result ≡ lowest_of (pool_words words.old)) × (words.new ≡ unpooled words.old result) }
{
    let at = store::pool_place(words);
    let s = bits::lowest(&words[at..], words[head::POOL_SKIP] as usize);
    bits::clear(words, at, s);
    words[head::POOL_SKIP] = (s / bits::WORD_BITS) as u64;
    s
}

// Sets the key of the lowest pooled slot to k, which no slot has and whose rank is `at`, and returns the slot.
fn take_slot(keys: &mut [u64], order: &mut [u32], words: &mut [u64], at: usize, k: u64) -> usize
    requires indexed { (Indexed keys.old order.old words.old) × (Ranked keys.old order.old words.old k at) × (Pooling keys.old words.old) }
    requires k_nonzero { (0 < k) × (slot_count words.old ≤ seek (take (slot_count words.old) keys.old) k) × (0 < ones_of (pool_words words.old)) }
    ensures taken { Taken k keys.old order.old words.old result keys.new order.new words.new }
    ensures ranked { Ranked keys.new order.new words.new k at }
{
    let c = words[head::CHUNKS] as usize;
    let n = words[head::HELD] as usize;
    let s = take_lowest(words);
    index::insert_at(&mut keys[0..c], &mut order[0..c], n, at, s as u32, k);
    words[head::HELD] = (n + 1) as u64;
    s
}

// The slot of the key k, whose rank is `at`, taken from the pool where none has it yet. The rank of the key k + 1 is then at + 1.
pub fn hold(keys: &mut [u64], order: &mut [u32], words: &mut [u64], at: usize, k: u64) -> usize
    requires indexed { (Indexed keys.old order.old words.old) × (Ranked keys.old order.old words.old k at) × (Pooling keys.old words.old) }
    requires k_nonzero { (0 < k) × (lacks (take (slot_count words.old) keys.old) k ≤ ones_of (pool_words words.old)) }
    ensures held { Held k keys.old order.old words.old result keys.new order.new words.new }
    ensures ranked { Ranked keys.new order.new words.new (k + 1) (at + 1) }
{
    let c = words[head::CHUNKS] as usize;
    let s = store::slot_at_rank(keys, order, words, at, k);
    if s < c {
        return s;
    }
    take_slot(keys, order, words, at, k)
}

// Zeroes n bytes from a place on.
fn clear(bytes: &mut [u8], at: usize, n: usize)
    requires { at + n ≤ length bytes.old }
    ensures { Zeroed bytes.old at n bytes.new }
{
    bytes[at..at + n].fill(0);
}

// Where the run of slots that begins at rank `from` ends, at `to` at the latest: each slot of it follows the one before. The contract does not say that the run is the longest.
fn run_end(order: &[u32], from: usize, to: usize) -> usize
    requires { (from < to) × (to ≤ length order.now) }
    ensures { SlotRun order.now from to result }
{
    for i in from + 1..to {
        if order[i] as usize != order[from] as usize + (i - from) {
            return i;
        }
    }
    to
}

// Zeroes the chunks of the slots at the ranks from `from` up to, but without, `to`. Slots that follow each other are zeroed at once: a page that grew without others between has such slots.
fn wipe(bytes: &mut [u8], order: &[u32], from: usize, to: usize)
    requires { (from ≤ to) × (to ≤ length order.now) × ((i : ℕ) → from ≤ i → i < to → 256 * get_or order.now i 0 + 256 ≤ length bytes.old) }
    ensures { Wiped bytes.old order.now from to bytes.new }
{
    // Stays: tried, `chunk_by` over the ranks. The proof didn't close: that 256 times the first slot of a run fits was left, for which the loop would have to carry what the closure computes.
    let mut i = from;
    while i < to {
        let end = run_end(order, i, to);
        clear(bytes, 256 * order[i] as usize, 256 * (end - i));
        i = end;
    }
}

// Returns a slot that is held to the pool. A search may not skip its word any more.
fn put_slot(words: &mut [u64], s: usize)
    requires { (PoolPart words.old) × (s < slot_count words.old) × (pool_word words.old (s / 64) + 2 ^ (s % 64) < 2 ^ 64) }
    ensures { words.new ≡ repooled words.old s }
{
    let at = store::pool_place(words);
    bits::put(words, at, s);
    words[head::POOL_SKIP] = words[head::POOL_SKIP].min((s / bits::WORD_BITS) as u64);
}

// Returns the slots at the ranks from `from` up to, but without, `to` to the pool.
fn put_slots(words: &mut [u64], order: &[u32], from: usize, to: usize)
    requires { Repoolable words.old order.now from to }
    ensures { words.new ≡ repooled_all words.old order.now from (to - from) }
{
    for &s in &order[from..to] {
        put_slot(words, s as usize);
    }
}

// Returns the slots to the pool whose keys are from lo up to, but without, hi; their chunks are zeroed.
pub fn give(
    bytes: &mut [u8],
    keys: &mut [u64],
    order: &mut [u32],
    words: &mut [u64],
    lo: u64,
    hi: u64,
)
    requires indexed { (Indexed keys.old order.old words.old) × (Pooling keys.old words.old) }
    requires words_in_bounds { (256 * slot_count words.old ≤ length bytes.old) × (0 < lo) × (lo ≤ hi) }
    ensures { Released lo hi bytes.old keys.old order.old words.old bytes.new keys.new order.new words.new }
{
    let c = words[head::CHUNKS] as usize;
    let n = words[head::HELD] as usize;
    let from = index::rank_below(&keys[0..c], &order[0..c], n, lo);
    let to = index::rank_below(&keys[0..c], &order[0..c], n, hi);
    wipe(bytes, &order[0..c], from, to);
    put_slots(words, &order[0..c], from, to);
    index::remove(&mut keys[0..c], &mut order[0..c], n, from, to);
    words[head::HELD] = (n - (to - from)) as u64;
}
