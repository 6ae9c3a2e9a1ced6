// A table of keys, and an order of its places by ascending key. A place with key 0 is free.
// The table of chunk holders and the table of pages are both of this form.
#![tactic(auto)]

ghost use Rattle.std.specs.Prelude.{◌≡◌, true, ℕ, ◌+◌, ◌^◌, ◌<◌, ◌≤◌, length, get_or, set};
ghost use Rattle.index.specs.Index.{all, rises, used_count, indexed, seek, LowerBound, MovedUp, Insertable, Cleared, MovedDown, Removed};

// How many places are in use.
fn count_used(keys: &[u64]) -> usize
    ensures { result ≡ used_count keys.now }
{
    let mut n = 0;
    for &k in keys {
        if k != 0 {
            n += 1;
        }
    }
    n
}

// Whether the keys of the first n places of the order rise strictly from above 0.
fn rising(keys: &[u64], order: &[u32], n: usize) -> bool
    requires { n ≤ length order.now }
    ensures { result ≡ all (rises keys.now order.now) n }
{
    let mut prev = 0;
    for &s in &order[..n] {
        let s = s as usize;
        if keys.len() <= s {
            return false;
        }
        let k = keys[s];
        if k <= prev {
            return false;
        }
        prev = k;
    }
    true
}

// Whether the first n of the order are the places in use, each once, by ascending key. As many as are in use, and rising: so none is missing.
pub fn index_ok(keys: &[u64], order: &[u32], n: usize) -> bool
    ensures { result ≡ indexed keys.now order.now n }
{
    n <= order.len() && count_used(keys) == n && rising(keys, order, n)
}

// By how many bits a step is shifted: by none where x is below k, else by so many that nothing is left.
fn away(x: u64, k: u64) -> usize
    ensures { (result < 64) × (x < k → result ≡ 0) × (k ≤ x → result ≡ 63) }
{
    if x < k { 0 } else { 63 }
}

// `half` where x is below k, else 0. A shift makes no branch, which a search would mispredict at every second step.
fn step(half: usize, x: u64, k: u64) -> usize
    requires { half < 2 ^ 63 }
    ensures { (x < k → result ≡ half) × (k ≤ x → result ≡ 0) }
{
    half >> away(x, k)
}

// The first rank whose key is at least k. `base` and `len` bracket it, and `base` moves up by a half or not at all.
pub fn rank_below(keys: &[u64], order: &[u32], n: usize, k: u64) -> usize
    requires { (n ≤ length order.now) × (all (rises keys.now order.now) n ≡ true) }
    ensures { LowerBound keys.now order.now n k result }
{
    let mut base = 0;
    let mut len = n;
    // Stays: `partition_point` shifts no step away, and takes a step more unless n is a power of 2.
    while 0 < len {
        let half = (len + 1) / 2;
        let s = order[base + half - 1] as usize;
        base += step(half, keys[s], k);
        len -= half;
    }
    base
}

// The same, the end first: a page that grows asks for keys past all others.
pub fn rank(keys: &[u64], order: &[u32], n: usize, k: u64) -> usize
    requires { (n ≤ length order.now) × (all (rises keys.now order.now) n ≡ true) }
    ensures { LowerBound keys.now order.now n k result }
{
    if 0 < n {
        let s = order[n - 1] as usize;
        if keys[s] < k {
            return n;
        }
    }
    rank_below(keys, order, n, k)
}

// The place of the key k, whose rank is `at`, or the number of places where none has it.
// Stays: the number of places stands for none. An Option is no plainer: callers hand the number on without a branch, since no key is at it.
pub fn place_at(keys: &[u64], order: &[u32], n: usize, at: usize, k: u64) -> usize
    requires { (indexed keys.now order.now n ≡ true) × (0 < k) × (LowerBound keys.now order.now n k at) }
    ensures { result ≡ seek keys.now k }
{
    if n <= at {
        return keys.len();
    }
    let s = order[at] as usize;
    if keys[s] == k {
        return s;
    }
    keys.len()
}

// The same, where the rank is not known.
// Stays: the number of places stands for none, as in `place_at`.
pub fn find(keys: &[u64], order: &[u32], n: usize, k: u64) -> usize
    requires { (indexed keys.now order.now n ≡ true) × (0 < k) }
    ensures { result ≡ seek keys.now k }
{
    let at = rank(keys, order, n, k);
    place_at(keys, order, n, at, k)
}

// Moves what stands from `at` to n up by one.
fn move_up(order: &mut [u32], at: usize, n: usize)
    requires { (at ≤ n) × (n < length order.old) }
    ensures { MovedUp order.old order.new at n }
{
    order.copy_within(at..n, at + 1);
}

// Gives the free place s the key k, which no place has and whose rank is `at`. That is its rank afterwards too.
pub fn insert_at(keys: &mut [u64], order: &mut [u32], n: usize, at: usize, s: u32, k: u64)
    requires { (Insertable keys.old order.old n s k) × (LowerBound keys.old order.old n k at) }
    ensures keys_after { (keys.new ≡ set keys.old s k) × (indexed keys.new order.new (n + 1) ≡ true) }
    ensures lower_bound { LowerBound keys.new order.new (n + 1) k at }
{
    move_up(order, at, n);
    order[at] = s;
    keys[s as usize] = k;
}

// The same, where the rank is not known.
pub fn insert(keys: &mut [u64], order: &mut [u32], n: usize, s: u32, k: u64)
    requires { Insertable keys.old order.old n s k }
    ensures { (keys.new ≡ set keys.old s k) × (indexed keys.new order.new (n + 1) ≡ true) }
{
    let at = rank(keys, order, n, k);
    insert_at(keys, order, n, at, s, k);
}

// Frees the places of the ranks from `from` up to, but without, `to`.
fn clear(keys: &mut [u64], order: &[u32], from: usize, to: usize)
    requires { (from ≤ to) × (to ≤ length order.now) × ((i : ℕ) → from ≤ i → i < to → get_or order.now i 0 < length keys.old) }
    ensures { Cleared keys.old order.now from to keys.new }
{
    for &s in &order[from..to] {
        keys[s as usize] = 0;
    }
}

// Moves what stands from `from` to n down to `at`.
fn move_down(order: &mut [u32], at: usize, from: usize, n: usize)
    requires { (at ≤ from) × (from ≤ n) × (n ≤ length order.old) }
    ensures { MovedDown order.old order.new at from n }
{
    // Stays: `copy_within` takes two fifths more instructions where many slots stay.
    for j in from..n {
        order[at + (j - from)] = order[j];
    }
}

// Frees the places of the ranks from `from` up to, but without, `to`; those above move down.
pub fn remove(keys: &mut [u64], order: &mut [u32], n: usize, from: usize, to: usize)
    requires { (indexed keys.old order.old n ≡ true) × (from ≤ to) × (to ≤ n) }
    ensures { Removed keys.old order.old n from to keys.new order.new }
{
    clear(keys, order, from, to);
    move_down(order, from, to, n);
}
