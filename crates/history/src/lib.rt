// The history of the bootloader pages: rollback to a snapshot, and deletion. A call tests first that the memory is well formed (refusal 3); `on_formed` has what is left of it.
// Stays: the lent buffers are parameters side by side. A rollback lends keys and order as `&`, and bytes and words as `&mut`, so no struct of four `&mut` can be made of them.
// Stays: each call makes the test of the memory itself. A function that makes it and calls a closure is no plainer: it would be handed the buffers, some as `&` and some as `&mut`.
#![tactic(auto)]

ghost use Rattle.outcome.specs.Outcome.{answer_outcome};
ghost use Rattle.store.specs.Mem.{mem};
ghost use Rattle.view.specs.Calls.{Rollback, DeleteHistory, CallDoes, nothing};

use outcome::Refusal;

pub mod on_formed;

// Puts the words back that were written since a snapshot. vm2: `rollback`.
pub fn rollback(
    bytes: &mut [u8],
    keys: &[u64],
    order: &[u32],
    words: &mut [u64],
    heap: u64,
    aux: u64,
) -> Result<(), Refusal>
    ensures { let m = mem bytes.old keys.now order.now words.old in CallDoes m (Rollback heap aux) (answer_outcome nothing result) (mem bytes.new keys.now order.now words.new) }
{
    if !formed::well_formed(bytes, keys, order, words) {
        return Err(Refusal::NotFormed);
    }
    on_formed::rollback(bytes, keys, order, words, heap, aux)
}

// Empties the journals: no earlier snapshot can be rolled back to. vm2: `delete_history`.
pub fn delete_history(
    bytes: &[u8],
    keys: &[u64],
    order: &[u32],
    words: &mut [u64],
) -> Result<(), Refusal>
    ensures { let m = mem bytes.now keys.now order.now words.old in CallDoes m DeleteHistory (answer_outcome nothing result) (mem bytes.now keys.now order.now words.new) }
{
    if !formed::well_formed(bytes, keys, order, words) {
        return Err(Refusal::NotFormed);
    }
    on_formed::delete_history(bytes, keys, order, words)
}
