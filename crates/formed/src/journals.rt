// The journals: which journal a page has, and whether each journal is right: its words are within its capacity, and their chunks are held by its own page.
ghost use Rattle.std.specs.Prelude.{◌≡◌, ◌&&◌, ◌+◌, ◌*◌, ◌/◌, ◌<◌, ◌≤◌, eqb, leb, length, get_or, take, drop};
ghost use Rattle.index.specs.Index.{all};
ghost use Rattle.store.specs.Mem.{head_length, fixed_count, layout_of, slot_count, journal_words};
ghost use Rattle.formed.specs.Pages.{journal_count, journal_place, JournalOf};
ghost use Rattle.formed.specs.Buffers.{words_for};
ghost use Rattle.formed.specs.Formed.{noted, journal_right};

use page_ids::PageId;
use store::head;

// The entry of journal j's page.
pub fn place(j: usize) -> usize
    requires { j < journal_count }
    ensures { (result ≡ journal_place j) × (result < fixed_count) }
{
    if j == 0 {
        head::BOOTLOADER_HEAP
    } else {
        head::BOOTLOADER_AUX
    }
}

// Which journal a page has; how many journals there are, where it has none.
// Stays: the number of journals stands for none. An Option is no plainer: the clause `JournalOf` and the journals' places go by the number.
pub fn journal_of(words: &[u64], page: PageId) -> usize
    requires { head_length ≤ length words.now }
    ensures { JournalOf (layout_of words.now) page.0 result }
{
    if words[head::BOOTLOADER_HEAP] == page.0 as u64 {
        return 0;
    }
    if words[head::BOOTLOADER_AUX] == page.0 as u64 {
        return 1;
    }
    head::JOURNAL_COUNT
}

// Whether slot s holds the key k.
fn holds(holders: &[u64], s: u64, k: u64) -> bool
    requires { 0 < k }
    ensures { result ≡ eqb (get_or holders.now s 0) k }
{
    let at = s as usize;
    at < holders.len() && holders[at] == k
}

// Whether a word at address a is rightly noted, s and t being the slots of its chunks and k the key of the page's chunk 0.
fn note_ok(holders: &[u64], a: u64, s: u64, t: u64, k: u64) -> bool
    requires { (0 < k) × (k < 1152921504606846976) }
    ensures { result ≡ (leb a 4294967295 && (eqb (get_or holders.now s 0) (k + a / 256) && eqb (get_or holders.now t 0) (k + (a + 31) / 256))) }
{
    a <= 4294967295 && holds(holders, s, k + a / 256) && holds(holders, t, k + (a + 31) / 256)
}

// Whether the first n words of a journal, with three numbers each, are rightly noted.
fn notes_ok(holders: &[u64], notes: &[u64], n: usize, k: u64) -> bool
    requires { (n ≤ 65536) × (3 * n ≤ length notes.now) × (0 < k) × (k < 1152921504606846976) }
    ensures { result ≡ all (noted holders.now notes.now k) n }
{
    let (notes, _) = notes.as_chunks::<3>();
    notes[..n]
        .iter()
        .all(|[a, s, t]| note_ok(holders, *a, *s, *t, k))
}

// Whether journal j is right.
#[tactic(auto, unfolding(crate::specs::Formed::journal_right))]
fn journal_ok(holders: &[u64], words: &[u64], j: usize) -> bool
    requires { (j < journal_count) × (journal_words words.now ≤ 65536) × (length words.now ≡ words_for (slot_count words.now) (journal_words words.now)) }
    ensures { result ≡ journal_right holders.now words.now j }
{
    let most = words[head::JOURNAL_WORDS] as usize;
    let n = words[head::JOURNALS + j] as usize;
    let at = head::LENGTH + 3 * most * j;
    let key = store::key_of(place(j), 0);
    n <= most && notes_ok(holders, &words[at..at + 3 * most], n, key)
}

// Whether every journal is right.
pub fn journals_ok(holders: &[u64], words: &[u64]) -> bool
    requires { (journal_words words.now ≤ 65536) × (length words.now ≡ words_for (slot_count words.now) (journal_words words.now)) }
    ensures { result ≡ all (journal_right holders.now words.now) journal_count }
{
    (0..head::JOURNAL_COUNT).all(|j| journal_ok(holders, words, j))
}
