// What one hint tells of a word: the lookup of the fast functions in `owned`.
// Stays: the lent buffers are parameters side by side. A struct of four `&` is no plainer: callers have `&mut` buffers in hand and would build it for each call, most functions read two or three of the four, and an `ensures` would say `memory.entry.keys.now` for `keys.now`.
#![tactic(auto)]

ghost use Rattle.std.specs.Prelude.{◌≡◌, true, false, ◌+◌, ◌<◌, ◌≤◌, length, get_or};
ghost use Rattle.store.specs.Mem.{head_length, slot_count, layout_of};
ghost use Rattle.store.specs.Find.{Findable};
ghost use Rattle.formed.specs.Parts.{tab};
ghost use Rattle.hints.specs.Hints.{InOnePiece, WithoutJournal};

use page_ids::{Address, PageId};
use store::head;

// The slot in which the word at an address begins, if a hint names it and the word lies in one piece: in one chunk, or in two whose slots follow each other. Any other answer is at least the number of slots, and says nothing.
// A page that grew without others between has its chunks in slots that follow each other.
// Stays: the number of slots stands for none, as in `store`.
pub fn in_one_piece(
    keys: &[u64],
    order: &[u32],
    words: &[u64],
    page: PageId,
    address: Address,
) -> usize
    requires { Findable keys.now order.now words.now }
    ensures { result < slot_count words.now → InOnePiece keys.now words.now page.0 address.0 result }
{
    let c = words[head::CHUNKS] as usize;
    let s = store::hinted(keys, order, words, page, address.0 / 256);
    if address.0 % 256 <= 224 {
        return s;
    }
    if s >= c {
        return c;
    }
    if store::next_to(keys, words, s) >= c {
        return c;
    }
    s
}

// Whether a page has no journal.
pub fn has_no_journal(words: &[u64], page: PageId) -> bool
    requires { head_length ≤ length words.now }
    ensures { (result ≡ true → WithoutJournal (layout_of words.now) page.0) × (result ≡ false → WithoutJournal (layout_of words.now) page.0 → ⊥) }
{
    formed::journals::journal_of(words, page) >= head::JOURNAL_COUNT
}

// The 32 bytes from a place on.
pub fn word_at(bytes: &[u8], at: usize) -> [u8; 32]
    requires { at + 32 ≤ length bytes.now }
    ensures { result ≡ tab 32 (λ i. get_or bytes.now (at + i) 0) }
{
    let mut word = [0u8; 32];
    bodies::copy(bytes, at, &mut word, 0, 32);
    word
}
