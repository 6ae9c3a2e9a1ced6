// A bit for each place of a table, in words of 64 bits, the lowest bit first: it is set where the place is free.
#![tactic(auto)]

ghost use Rattle.std.specs.Prelude.{◌≡◌, ◌||◌, ℕ, ◌+◌, ◌*◌, ◌-◌, ◌/◌, ◌%◌, ◌^◌, ◌<◌, ◌≤◌, min, eqb, leb, length, get_or, set};
ghost use Rattle.bits.specs.Bits.{ones_of, lowest_of, free_bits};

// How many bits a word has.
pub const WORD_BITS: usize = 64;

// How many bits are set. The first `skip` words are 0.
pub fn count(ws: &[u64], skip: usize) -> u64
    requires { (length ws.now ≤ 1024) × (skip ≤ length ws.now) × ((i : ℕ) → i < skip → get_or ws.now i 0 ≡ 0) }
    ensures { result ≡ ones_of ws.now }
{
    let mut n = 0;
    for &w in &ws[skip..] {
        n += u64::from(w.count_ones());
    }
    n
}

// Whether at least n bits are set. The first `skip` words are 0. Only so many words are read as are needed.
pub fn has_ones(ws: &[u64], skip: usize, n: u64) -> bool
    requires { (length ws.now ≤ 1024) × (skip ≤ length ws.now) × ((i : ℕ) → i < skip → get_or ws.now i 0 ≡ 0) }
    ensures { result ≡ leb n (ones_of ws.now) }
{
    let mut found = 0;
    for &w in &ws[skip..] {
        if w != 0 {
            // it has one at least, so it is not counted where one more is enough
            if n <= found + 1 {
                return true;
            }
            found += u64::from(w.count_ones());
        }
    }
    n <= found
}

// The lowest bit that is set. The first `skip` words are 0.
pub fn lowest(ws: &[u64], skip: usize) -> usize
    requires { (length ws.now ≤ 1024) × (0 < ones_of ws.now) × (skip ≤ length ws.now) × ((i : ℕ) → i < skip → get_or ws.now i 0 ≡ 0) }
    ensures { result ≡ lowest_of ws.now }
{
    for (i, &w) in ws[skip..].iter().enumerate() {
        if w != 0 {
            return WORD_BITS * (skip + i) + w.trailing_zeros() as usize;
        }
    }
    0
}

// Sets the bit of place s of a table. The word at place `at` of `words` has the bits of the table's first 64 places, and the others follow.
pub fn put(words: &mut [u64], at: usize, s: usize)
    requires { (at + s / 64 < length words.old) × (get_or words.old (at + s / 64) 0 + 2 ^ (s % 64) < 2 ^ 64) }
    ensures { words.new ≡ set words.old (at + s / 64) (get_or words.old (at + s / 64) 0 + 2 ^ (s % 64)) }
{
    let i = at + s / WORD_BITS;
    words[i] += 1 << (s % WORD_BITS);
}

// Clears the bit of place s of a table, whose bits are in `words` from place `at` on.
pub fn clear(words: &mut [u64], at: usize, s: usize)
    requires { (at + s / 64 < length words.old) × (2 ^ (s % 64) ≤ get_or words.old (at + s / 64) 0) }
    ensures { words.new ≡ set words.old (at + s / 64) (get_or words.old (at + s / 64) 0 - 2 ^ (s % 64)) }
{
    let i = at + s / WORD_BITS;
    words[i] -= 1 << (s % WORD_BITS);
}

// The number of which the n lowest bits are set, all 64 where n is larger.
fn first_ones(n: usize) -> u64
    ensures { result ≡ 2 ^ min n 64 - 1 }
{
    if n < WORD_BITS {
        (1 << n) - 1
    } else {
        u64::MAX
    }
}

// Sets the bits of n places, and no other.
pub fn fill(ws: &mut [u64], n: usize)
    requires { length ws.old ≡ (n + 63) / 64 }
    ensures { (length ws.new ≡ length ws.old) × ((i : ℕ) → i < length ws.old → get_or ws.new i 0 ≡ 2 ^ min (n - 64 * i) 64 - 1) }
{
    for (i, w) in ws.iter_mut().enumerate() {
        *w = first_ones(n - WORD_BITS * i);
    }
}

// Whether x has the bits of n places from `at` on, and no other, bit by bit.
fn each_bit_ok(keys: &[u64], at: usize, n: usize, x: u64) -> bool
    requires { (n ≤ 64) × (at + n ≤ length keys.now) }
    ensures { result ≡ eqb x (free_bits keys.now at n) }
{
    let mut left = x;
    for &k in &keys[at..at + n] {
        if left % 2 != u64::from(k == 0) {
            return false;
        }
        left /= 2;
    }
    // no bit is set past the last place
    left == 0
}

// Whether each of n places from `at` on is free. There is no early way out, so that the loop is compiled to vector code.
fn all_free(keys: &[u64], at: usize, n: usize) -> bool
    requires { at + n ≤ length keys.now }
    ensures { result ≡ eqb (2 ^ n - 1) (free_bits keys.now at n) }
{
    let mut any = 0;
    for &k in &keys[at..at + n] {
        any |= k;
    }
    any == 0
}

// Whether x is 0, or has the bits of n places from `at` on, and no other. Most words that are not 0 are those of places that are all free.
pub fn word_ok(keys: &[u64], at: usize, n: usize, x: u64) -> bool
    requires { (n ≤ 64) × (at + n ≤ length keys.now) }
    ensures { result ≡ (eqb x 0 || eqb x (free_bits keys.now at n)) }
{
    if x == 0 {
        return true;
    }
    if x == first_ones(n) {
        return all_free(keys, at, n);
    }
    each_bit_ok(keys, at, n, x)
}
