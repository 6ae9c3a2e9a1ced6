// The pool: a bit for each slot, set where no chunk is held.
ghost use Rattle.std.specs.Prelude.{◌≡◌, ◌||◌, ◌+◌, ◌-◌, ◌≤◌, min, eqb, length, get_or};
ghost use Rattle.index.specs.Index.{all, used_count};
ghost use Rattle.bits.specs.Bits.{free_word};
ghost use Rattle.store.specs.Mem.{head_length, slot_count, held_now, pool_length};
ghost use Rattle.formed.specs.Formed.{pool_right};

use store::head;

// How many slots have their bits in the word whose first slot is `at`.
fn slots_in(at: usize, slots: usize) -> usize
    requires { at ≤ slots }
    ensures { result ≡ min 64 (slots - at) }
{
    bits::WORD_BITS.min(slots - at)
}

// Whether each word that is not 0 has the bits of its slots, and no other.
fn bits_ok(holders: &[u64], pool: &[u64]) -> bool
    requires { length pool.now ≡ pool_length (length holders.now) }
    ensures { result ≡ all (λ i. eqb (get_or pool.now i 0) 0 || eqb (get_or pool.now i 0) (free_word holders.now i)) (length pool.now) }
{
    pool.iter().enumerate().all(|(i, word)| {
        let at = bits::WORD_BITS * i;
        bits::word_ok(holders, at, slots_in(at, holders.len()), *word)
    })
}

// Whether the first n words are 0.
fn zeros_ok(pool: &[u64], n: usize) -> bool
    requires { n ≤ length pool.now }
    ensures { result ≡ all (λ i. eqb (get_or pool.now i 0) 0) n }
{
    pool[..n].iter().all(|word| *word == 0)
}

// Whether the pool is right. Where as many bits are set as slots are free, a word is 0 only if none of its slots is free.
pub fn pool_ok(holders: &[u64], words: &[u64]) -> bool
    requires { (slot_count words.now ≤ 65536) × (head_length + pool_length (slot_count words.now) ≤ length words.now) × (length holders.now ≡ slot_count words.now) × (used_count holders.now ≡ held_now words.now) }
    ensures { result ≡ pool_right holders.now words.now }
{
    let at = store::pool_place(words);
    bits::count(&words[at..], 0) == words[head::CHUNKS] - words[head::HELD]
        && bits_ok(holders, &words[at..])
        && words[head::POOL_SKIP] <= store::pool_length(words[head::CHUNKS])
        && zeros_ok(&words[at..], words[head::POOL_SKIP] as usize)
}
