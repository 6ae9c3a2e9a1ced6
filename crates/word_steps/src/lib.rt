// A word write whose chunks' slots are known: the word is journalled, and another put in its place, or the write is refused.
// Stays: the lent buffers are parameters side by side. As a struct of four `&mut`, tried in `pool`, they can't be lent as `&` and `&mut` at once,
// so each body would first take the fields out, and each contract would say that the four references stay the same.
#![tactic(auto)]

ghost use Rattle.outcome.specs.Outcome.{answer_outcome};
ghost use Rattle.word.specs.Value.{value, word_bytes};
ghost use Rattle.view.specs.Calls.{Call, CallDoes, nothing};
ghost use Rattle.store.specs.Mem.{mem, layout_of};
ghost use Rattle.formed.specs.WellFormed.{WellFormed};
ghost use Rattle.view.specs.View.{setting_of, view_of};
ghost use Rattle.view.specs.Steps.{word_notes};
ghost use Rattle.view.specs.Does.{Shows};
ghost use Rattle.view.specs.Inner.{journalling};
ghost use Rattle.word_steps.specs.Asks.{WordFound, WordAsks, word_put, WrittenOrLeft};

use outcome::Refusal;
use page_ids::{Address, PageId};
use store::head;
use word::Word;

// The word at an address, whose chunks are held at the slots s and t, is journalled, if its page has a journal.
fn journal_found(
    bytes: &mut [u8],
    keys: &[u64],
    order: &[u32],
    words: &mut [u64],
    page: PageId,
    address: Address,
    s: usize,
    t: usize,
)
    requires { WordAsks (mem bytes.old keys.now order.now words.old) page.0 address.0 s t }
    ensures { Shows (setting_of (mem bytes.old keys.now order.now words.old)) (journalling (layout_of words.old) page.0 (word_notes (view_of (mem bytes.old keys.now order.now words.old)) page.0 address.0) (view_of (mem bytes.old keys.now order.now words.old))) (mem bytes.new keys.now order.now words.new) }
{
    let j = formed::journals::journal_of(words, page);
    if j < head::JOURNAL_COUNT {
        journal::note_found(bytes, keys, order, words, j, address, s, t);
    }
}

// The word at an address, whose chunks are held at the slots s and t, is journalled, if its page has a journal, and another put in its place.
pub fn write_at(
    bytes: &mut [u8],
    keys: &[u64],
    order: &[u32],
    words: &mut [u64],
    page: PageId,
    address: Address,
    s: usize,
    t: usize,
    word: Word,
)
    requires { WordAsks (mem bytes.old keys.now order.now words.old) page.0 address.0 s t }
    ensures { Shows (setting_of (mem bytes.old keys.now order.now words.old)) (word_put (layout_of words.old) page.0 address.0 (word_bytes (value word.limbs)) (view_of (mem bytes.old keys.now order.now words.old))) (mem bytes.new keys.now order.now words.new) }
{
    journal_found(bytes, keys, order, words, page, address, s, t);
    bodies::put_word(
        bytes,
        s,
        t,
        (address.0 % 256) as usize,
        word::to_big_endian(word),
    );
}

// Writes a word whose chunks are held at the slots s and t. Of the refusals of a word write only 11 is left.
pub fn write_found(
    bytes: &mut [u8],
    keys: &[u64],
    order: &[u32],
    words: &mut [u64],
    page: PageId,
    address: Address,
    s: usize,
    t: usize,
    word: Word,
) -> Result<(), Refusal>
    requires { WordFound (mem bytes.old keys.now order.now words.old) page.0 address.0 s t }
    ensures { CallDoes (mem bytes.old keys.now order.now words.old) (Call.WriteWord page.0 address.0 (value word.limbs)) (answer_outcome nothing result) (mem bytes.new keys.now order.now words.new) }
{
    if checks::short_of_words(bytes, keys, order, words, page, 1) {
        return Err(Refusal::NoJournal);
    }
    write_at(bytes, keys, order, words, page, address, s, t, word);
    Ok(())
}

// Writes a word whose chunks hints know. `None` says that they do not, and that nothing was done.
pub fn write_known(
    bytes: &mut [u8],
    keys: &[u64],
    order: &[u32],
    words: &mut [u64],
    page: PageId,
    address: Address,
    word: Word,
) -> Option<Result<(), Refusal>>
    requires { WellFormed (mem bytes.old keys.now order.now words.old) }
    ensures { WrittenOrLeft (mem bytes.old keys.now order.now words.old) page.0 address.0 (value word.limbs) result (mem bytes.new keys.now order.now words.new) }
{
    let c = words[head::CHUNKS] as usize;
    let s = store::hinted(keys, order, words, page, address.0 / 256);
    if s >= c {
        return None;
    }
    let t = store::hinted_last(keys, order, words, page, address, s);
    if t >= c {
        return None;
    }
    Some(write_found(bytes, keys, order, words, page, address, s, t, word))
}
