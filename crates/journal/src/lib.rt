// The journals of the bootloader pages: words as they were before they were written. vm2: the rollback part of `Heaps`.
// Stays: the lent buffers are parameters side by side. As a struct of four `&mut`, tried in `pool`, they can't be lent as `&` and `&mut` at once,
// so each body would first take the fields out, and each contract would say that the four references stay the same.
#![tactic(auto)]

ghost use Rattle.std.specs.Prelude.{◌≡◌, ◌+◌, ◌*◌, ◌^◌, ◌<◌, ◌≤◌};
ghost use Rattle.store.specs.Indexed.{Indexed};
ghost use Rattle.store.specs.Find.{slot_at_entry};
ghost use Rattle.store.specs.Mem.{mem, layout_of, journal_words};
ghost use Rattle.formed.specs.Pages.{journal_count, journal_page};
ghost use Rattle.formed.specs.WellFormed.{WellFormed};
ghost use Rattle.view.specs.View.{setting_of, view_of};
ghost use Rattle.view.specs.Steps.{word_notes, marks, rolled_back, forgotten};
ghost use Rattle.view.specs.Does.{Shows};
ghost use Rattle.view.specs.Inner.{noting, NoteAsks};
ghost use Rattle.formed.specs.Parts.{word_number};
ghost use Rattle.journal.specs.Words.{Numbered, NoteRoom, NotedAt, BackAsks, PutBack};
ghost use Rattle.journal.specs.Steps.{NoteSlots, aligned_from, AlignedAsks, undoing, UndoAsks, RollBackAsks};

use page_ids::Address;
use store::head;

// The number of word i of journal j among those of all journals.
fn number(words: &[u64], j: usize, i: usize) -> usize
    requires { Numbered words.now j i }
    ensures { (result ≡ word_number words.now j i) × (result < journal_count * journal_words words.now) }
{
    words[head::JOURNAL_WORDS] as usize * j + i
}

// Notes the word at an address, whose first and last chunk are held at the slots s and t, as the newest of journal j.
fn note_at(bytes: &mut [u8], words: &mut [u64], j: usize, address: Address, s: usize, t: usize)
    requires { NoteRoom bytes.old words.old j s t }
    ensures { NotedAt bytes.old words.old j address.0 s t bytes.new words.new }
{
    let i = words[head::JOURNALS + j];
    let n = number(words, j, i as usize);
    let c = words[head::CHUNKS] as usize;
    let old = bodies::word_in(bytes, s, t, (address.0 % 256) as usize);
    bodies::copy(&old, 0, bytes, 256 * c + 32 * n, 32);
    let at = head::LENGTH + 3 * n;
    words[at] = address.0 as u64;
    words[at + 1] = s as u64;
    words[at + 2] = t as u64;
    words[head::JOURNALS + j] = i + 1;
}

// Notes the word at an address of journal j's page, whose first and last chunk are held at the slots s and t. vm2: `record_bootloader_word_rollback`.
pub fn note_found(
    bytes: &mut [u8],
    keys: &[u64],
    order: &[u32],
    words: &mut [u64],
    j: usize,
    address: Address,
    s: usize,
    t: usize,
)
    requires note_asks { NoteAsks (mem bytes.old keys.now order.now words.old) j address.0 }
    requires note_slots { NoteSlots (mem bytes.old keys.now order.now words.old) j address.0 s t }
    ensures { Shows (setting_of (mem bytes.old keys.now order.now words.old)) (noting j (word_notes (view_of (mem bytes.old keys.now order.now words.old)) (journal_page (layout_of words.old) j) address.0) (view_of (mem bytes.old keys.now order.now words.old))) (mem bytes.new keys.now order.now words.new) }
{
    note_at(bytes, words, j, address, s, t);
}

// The slot of a chunk of the page at entry e: `guess` or the slot after it, if that has the chunk's key, or else by search.
// Stays: the number of slots stands for none, as in `store`.
fn slot_near(
    keys: &[u64],
    order: &[u32],
    words: &[u64],
    e: usize,
    chunk: u64,
    guess: usize,
) -> usize
    requires { (Indexed keys.now order.now words.now) × (e ≤ 69636) × (chunk ≤ 2 ^ 32) × (guess ≤ 65536) }
    ensures { result ≡ slot_at_entry keys.now words.now e chunk }
{
    let k = store::key_of(e, chunk);
    if store::has_key(keys, words, guess, k) {
        return guess;
    }
    if store::has_key(keys, words, guess + 1, k) {
        return guess + 1;
    }
    store::slot_at_entry(keys, order, words, e, chunk)
}

// Notes the aligned word number n, which lies in one chunk. `guess` is the slot that is looked at first. The answer is the chunk's slot, as the next guess; the contract says only that it is at most 65,536.
fn note(
    bytes: &mut [u8],
    keys: &[u64],
    order: &[u32],
    words: &mut [u64],
    j: usize,
    n: u32,
    guess: usize,
) -> usize
    requires { (NoteAsks (mem bytes.old keys.now order.now words.old) j (32 * n)) × (guess ≤ 65536) }
    ensures shows { Shows (setting_of (mem bytes.old keys.now order.now words.old)) (noting j (word_notes (view_of (mem bytes.old keys.now order.now words.old)) (journal_page (layout_of words.old) j) (32 * n)) (view_of (mem bytes.old keys.now order.now words.old))) (mem bytes.new keys.now order.now words.new) }
    ensures upper_bound { result ≤ 65536 }
{
    let e = formed::journals::place(j);
    let s = slot_near(keys, order, words, e, (n / 8) as u64, guess);
    note_found(bytes, keys, order, words, j, Address(32 * n), s, s);
    s
}

// Empties the journals. vm2: `delete_history`.
pub fn forget(bytes: &[u8], keys: &[u64], order: &[u32], words: &mut [u64])
    requires { WellFormed (mem bytes.now keys.now order.now words.old) }
    ensures { Shows (setting_of (mem bytes.now keys.now order.now words.old)) (forgotten (view_of (mem bytes.now keys.now order.now words.old))) (mem bytes.now keys.now order.now words.new) }
{
    words[head::HEAP_JOURNAL] = 0;
    words[head::AUX_JOURNAL] = 0;
}

// Puts word i of journal j back at the slots noted: no search.
fn put_back(bytes: &mut [u8], words: &[u64], j: usize, i: usize)
    requires { BackAsks bytes.old words.now j i }
    ensures { PutBack bytes.old words.now j i bytes.new }
{
    let n = number(words, j, i);
    let c = words[head::CHUNKS] as usize;
    let mut old = [0u8; 32];
    bodies::copy(bytes, 256 * c + 32 * n, &mut old, 0, 32);
    let at = head::LENGTH + 3 * n;
    bodies::put_word(
        bytes,
        words[at + 1] as usize,
        words[at + 2] as usize,
        (words[at] % 256) as usize,
        old,
    );
}

// Puts the words of journal j from number `mark` on back, newest first, and cuts the journal there.
fn undo(bytes: &mut [u8], keys: &[u64], order: &[u32], words: &mut [u64], j: usize, mark: u64)
    requires { UndoAsks (mem bytes.old keys.now order.now words.old) j mark }
    ensures { Shows (setting_of (mem bytes.old keys.now order.now words.old)) (undoing (layout_of words.old) j mark (view_of (mem bytes.old keys.now order.now words.old))) (mem bytes.new keys.now order.now words.new) }
{
    for i in (mark..words[head::JOURNALS + j]).rev() {
        put_back(bytes, words, j, i as usize);
    }
    words[head::JOURNALS + j] = mark;
}

// Puts the words back that were noted since a snapshot, and cuts the journals there. vm2: `rollback`.
pub fn roll_back(
    bytes: &mut [u8],
    keys: &[u64],
    order: &[u32],
    words: &mut [u64],
    heap: u64,
    aux: u64,
)
    requires { RollBackAsks (mem bytes.old keys.now order.now words.old) heap aux }
    ensures { Shows (setting_of (mem bytes.old keys.now order.now words.old)) (rolled_back (layout_of words.old) (marks heap aux) (view_of (mem bytes.old keys.now order.now words.old))) (mem bytes.new keys.now order.now words.new) }
{
    undo(bytes, keys, order, words, 0, heap);
    undo(bytes, keys, order, words, 1, aux);
}

// Notes the aligned words from number `first` on of journal j's page, which holds their chunks. vm2: `record_bootloader_range_rollback`.
pub fn note_aligned(
    bytes: &mut [u8],
    keys: &[u64],
    order: &[u32],
    words: &mut [u64],
    j: usize,
    first: u32,
    count: u32,
)
    requires { AlignedAsks (mem bytes.old keys.now order.now words.old) j first count }
    ensures { Shows (setting_of (mem bytes.old keys.now order.now words.old)) (noting j (aligned_from (view_of (mem bytes.old keys.now order.now words.old)) (journal_page (layout_of words.old) j) first count) (view_of (mem bytes.old keys.now order.now words.old))) (mem bytes.new keys.now order.now words.new) }
{
    // The next word is often in the same chunk or in the next one, and that in the next slot.
    let mut guess = words[head::CHUNKS] as usize;
    for i in 0..count {
        guess = note(bytes, keys, order, words, j, first + i, guess);
    }
}
