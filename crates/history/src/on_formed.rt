// Rollback and deletion in a memory that is known to be well formed: what is left of each call after the test.
// Stays: the lent buffers are parameters side by side, for the reason that lib.rt has.
ghost use Rattle.std.specs.Prelude.{◌≡◌};
ghost use Rattle.outcome.specs.Outcome.{answer_outcome, status_of};
ghost use Rattle.store.specs.Mem.{mem};
ghost use Rattle.formed.specs.WellFormed.{WellFormed};
ghost use Rattle.view.specs.View.{view_of};
ghost use Rattle.view.specs.Checks.{rollback_checks};
ghost use Rattle.view.specs.Calls.{Rollback, DeleteHistory, first_refusal, CallDoes, nothing};

use outcome::Refusal;
use store::head;

// The refusal that a rollback gets, if any.
fn rollback_refusal(
    bytes: &[u8],
    keys: &[u64],
    order: &[u32],
    words: &[u64],
    heap: u64,
    aux: u64,
) -> Result<(), Refusal>
    requires { WellFormed (mem bytes.now keys.now order.now words.now) }
    ensures { status_of result ≡ first_refusal (rollback_checks (view_of (mem bytes.now keys.now order.now words.now)) heap aux) }
{
    if words[head::HEAP_JOURNAL] < heap {
        return Err(Refusal::BadMark);
    }
    if words[head::AUX_JOURNAL] < aux {
        return Err(Refusal::BadMark);
    }
    Ok(())
}

pub fn rollback(
    bytes: &mut [u8],
    keys: &[u64],
    order: &[u32],
    words: &mut [u64],
    heap: u64,
    aux: u64,
) -> Result<(), Refusal>
    requires { WellFormed (mem bytes.old keys.now order.now words.old) }
    ensures { let m = mem bytes.old keys.now order.now words.old in CallDoes m (Rollback heap aux) (answer_outcome nothing result) (mem bytes.new keys.now order.now words.new) }
{
    rollback_refusal(bytes, keys, order, words, heap, aux)?;
    journal::roll_back(bytes, keys, order, words, heap, aux);
    Ok(())
}

pub fn delete_history(
    bytes: &[u8],
    keys: &[u64],
    order: &[u32],
    words: &mut [u64],
) -> Result<(), Refusal>
    requires { WellFormed (mem bytes.now keys.now order.now words.old) }
    ensures { let m = mem bytes.now keys.now order.now words.old in CallDoes m DeleteHistory (answer_outcome nothing result) (mem bytes.now keys.now order.now words.new) }
{
    journal::forget(bytes, keys, order, words);
    Ok(())
}
