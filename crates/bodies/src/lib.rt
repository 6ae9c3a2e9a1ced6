// Bytes put into chunks that are held.
// Stays: the lent buffers are parameters side by side. As a struct of four `&mut`, tried in `pool`, they can't be lent as `&` and `&mut` at once,
// so each body would first take the fields out, and each contract would say that the four references stay the same.
#![tactic(auto)]

ghost use Rattle.std.specs.Prelude.{◌≡◌, ◌+◌, ◌-◌, ◌%◌, ◌<◌, ◌≤◌, min, length, get_or};
ghost use Rattle.store.specs.Mem.{mem, slot_count};
ghost use Rattle.store.specs.Keys.{last_chunk};
ghost use Rattle.store.specs.Find.{slot_for, Findable};
ghost use Rattle.formed.specs.Parts.{tab};
ghost use Rattle.view.specs.View.{setting_of, view_of};
ghost use Rattle.view.specs.Does.{Shows};
ghost use Rattle.view.specs.Inner.{putting, PutAsks};
ghost use Rattle.bodies.specs.Words.{place_in, Spread, InSlots};
ghost use Rattle.bodies.specs.Walk.{SlotBefore};

use page_ids::{Address, PageId};
use store::head;

// Copies n bytes. Between two parts of one buffer they go through a local array.
pub fn copy(src: &[u8], from: usize, dst: &mut [u8], to: usize, n: usize)
    requires { (from + n ≤ length src.now) × (to + n ≤ length dst.old) }
    ensures { Spread (λ i. to + i) (λ i. get_or src.now (from + i) 0) n dst.old dst.new }
{
    // Stays: `copy_from_slice` of a part whose length isn't a constant compiles to a call of memmove, which the C archives don't ask of their host.
    for i in 0..n {
        dst[to + i] = src[from + i];
    }
}

// The word that begins at offset r of slot s and goes on in slot t.
pub fn word_in(bytes: &[u8], s: usize, t: usize, r: usize) -> [u8; 32]
    requires { InSlots bytes.now s t r }
    ensures { result ≡ tab 32 (λ i. get_or bytes.now (place_in s t r i) 0) }
{
    let mut word = [0u8; 32];
    if r <= 224 {
        copy(bytes, 256 * s + r, &mut word, 0, 32);
        return word;
    }
    let n = 256 - r;
    copy(bytes, 256 * s + r, &mut word, 0, n);
    copy(bytes, 256 * t, &mut word, n, 32 - n);
    word
}

// Puts a word that begins at offset r of slot s and goes on in slot t.
pub fn put_word(bytes: &mut [u8], s: usize, t: usize, r: usize, word: [u8; 32])
    requires { InSlots bytes.old s t r }
    ensures { Spread (place_in s t r) (λ i. get_or word i 0) 32 bytes.old bytes.new }
{
    if r <= 224 {
        copy(&word, 0, bytes, 256 * s + r, 32);
        return;
    }
    let n = 256 - r;
    copy(&word, 0, bytes, 256 * s + r, n);
    copy(&word, n, bytes, 256 * t, 32 - n);
}

// How many of `left` bytes at an address are put into its chunk.
fn piece(address: u64, left: usize) -> usize
    ensures { result ≡ min left (256 - address % 256) }
{
    left.min(256 - (address % 256) as usize)
}

// The slot of a chunk of a page; `last` is the slot of the chunk before it, or at least the number of slots. Chunks that follow each other often have slots that do.
// Stays: the number of slots stands for none, as in `store`.
fn place_after(
    keys: &[u64],
    order: &[u32],
    words: &[u64],
    page: PageId,
    chunk: u32,
    last: usize,
) -> usize
    requires findable { (Findable keys.now order.now words.now) × (chunk ≤ last_chunk) }
    requires last_bound { (last ≤ 65536) × (last < slot_count words.now → SlotBefore keys.now words.now page.0 chunk last) }
    ensures { result ≡ slot_for keys.now words.now page.0 chunk }
{
    let s = store::next_to(keys, words, last);
    if s < words[head::CHUNKS] as usize {
        return s;
    }
    store::place_of(keys, order, words, page, chunk)
}

// Puts src at an address of a page that holds every chunk that it touches. vm2: `write_from`.
pub fn write_from(
    bytes: &mut [u8],
    keys: &[u64],
    order: &[u32],
    words: &[u64],
    page: PageId,
    address: Address,
    src: &[u8],
)
    requires { PutAsks (mem bytes.old keys.now order.now words.now) page.0 address.0 (length src.now) }
    ensures { Shows (setting_of (mem bytes.old keys.now order.now words.now)) (putting page.0 address.0 src.now (view_of (mem bytes.old keys.now order.now words.now))) (mem bytes.new keys.now order.now words.now) }
{
    let mut pos = 0;
    let mut last = words[head::CHUNKS] as usize;
    // Stays: the new form is no plainer. `pos` goes on by a piece, the first of which is cut off at its chunk's end, and gives the address too; a rest of `src` that shrinks would need it besides.
    while pos < src.len() {
        let abs = address.0 as u64 + pos as u64;
        let s = place_after(keys, order, words, page, (abs / 256) as u32, last);
        let n = piece(abs, src.len() - pos);
        copy(src, pos, bytes, 256 * s + (abs % 256) as usize, n);
        last = s;
        pos += n;
    }
}
