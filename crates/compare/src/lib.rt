// Whether two lent memories are equal: every page has equal bytes, and the same pages are allocated.
// The call tests first that both are well formed (refusal 3); `on_formed` has what is left of it.
// Stays: the lent buffers are parameters side by side. The C interface lends four, and `Went` (lists/specs), by which the theorem `Demand` takes a call's arguments, has them by their places.
#![tactic(auto)]

ghost use Rattle.std.specs.Prelude.{◌≡◌};
ghost use Rattle.store.specs.Mem.{mem};
ghost use Rattle.view.specs.Calls.{comparison_of};
ghost use Rattle.compare.specs.Verdict.{comparison_outcome};

use outcome::Refusal;

pub mod on_formed;

// Compares two memories. vm2: `eq` of `Heaps`.
pub fn compare(
    left_bytes: &[u8],
    left_keys: &[u64],
    left_order: &[u32],
    left_words: &[u64],
    right_bytes: &[u8],
    right_keys: &[u64],
    right_order: &[u32],
    right_words: &[u64],
) -> Result<bool, Refusal>
    ensures { comparison_outcome result ≡ comparison_of (mem left_bytes.now left_keys.now left_order.now left_words.now) (mem right_bytes.now right_keys.now right_order.now right_words.now) }
{
    if !formed::well_formed(left_bytes, left_keys, left_order, left_words) {
        return Err(Refusal::NotFormed);
    }
    if !formed::well_formed(right_bytes, right_keys, right_order, right_words) {
        return Err(Refusal::NotFormed);
    }
    on_formed::compare(
        left_bytes,
        left_keys,
        left_order,
        left_words,
        right_bytes,
        right_keys,
        right_order,
        right_words,
    )
}
