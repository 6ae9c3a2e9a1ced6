// The comparison of two memories that are known to be well formed: what is left of the call after its two tests.
// Stays: the lent buffers are parameters side by side, for the reason that lib.rt has.
ghost use Rattle.std.specs.Prelude.{◌≡◌, ◌+◌, ◌*◌, ◌<◌, ◌≤◌, length, get_or, take};
ghost use Rattle.store.specs.Keys.{key_chunk};
ghost use Rattle.store.specs.Find.{slot_at_entry};
ghost use Rattle.store.specs.Mem.{mem, layout_of};
ghost use Rattle.store.specs.Indexed.{Indexed};
ghost use Rattle.formed.specs.WellFormed.{WellFormed};
ghost use Rattle.view.specs.View.{view_of};
ghost use Rattle.view.specs.Steps.{alike};
ghost use Rattle.view.specs.Checks.{same_layout};
ghost use Rattle.view.specs.Calls.{comparison_of};
ghost use Rattle.compare.specs.Verdict.{comparison_outcome};
ghost use Rattle.compare.specs.Covers.{covers};

use outcome::Refusal;
use page_ids::PageId;
use store::head;

// Whether two memories have the same six numbers of a layout.
fn same_layout(left: &[u64], right: &[u64]) -> bool
    requires { (6 ≤ length left.now) × (6 ≤ length right.now) }
    ensures { result ≡ same_layout (layout_of left.now) (layout_of right.now) }
{
    left[..head::LAYOUT_LENGTH] == right[..head::LAYOUT_LENGTH]
}

// The slot in which the page at entry e has the chunk that the key names, or the number of slots where it holds none.
fn slot_beside(keys: &[u64], order: &[u32], words: &[u64], e: usize, key: u64) -> usize
    requires indexed { Indexed keys.now order.now words.now }
    requires e_bound { (e ≤ 4100) × (0 < key) }
    ensures { result ≡ slot_at_entry keys.now words.now e (key_chunk key) }
{
    store::slot_at_entry(keys, order, words, e, store::key_chunk(key))
}

// Byte j of slot t, or 0 where there is no such slot.
fn byte_beside(bytes: &[u8], slots: usize, t: usize, j: usize) -> u8
    requires { (256 * slots ≤ length bytes.now) × (j < 256) }
    ensures { result ≡ get_or (take (256 * slots) bytes.now) (256 * t + j) 0 }
{
    if t >= slots {
        return 0;
    }
    bytes[256 * t + j]
}

// Whether the right memory has every page that the left one has allocated, and the bytes of every chunk that the left one holds.
// The left one's slots are ordered by entry and chunk, so that one cursor over them serves all pages.
fn covered(
    left_bytes: &[u8],
    left_keys: &[u64],
    left_order: &[u32],
    left_words: &[u64],
    right_bytes: &[u8],
    right_keys: &[u64],
    right_order: &[u32],
    right_words: &[u64],
) -> bool
    requires well_formed { WellFormed (mem left_bytes.now left_keys.now left_order.now left_words.now) }
    requires well_formed_2 { WellFormed (mem right_bytes.now right_keys.now right_order.now right_words.now) }
    ensures { result ≡ covers (view_of (mem left_bytes.now left_keys.now left_order.now left_words.now)) (view_of (mem right_bytes.now right_keys.now right_order.now right_words.now)) }
{
    let slots = left_words[head::CHUNKS] as usize;
    let pages = left_words[head::PAGES] as usize + head::FIXED_ENTRIES;
    let held = left_words[head::HELD] as usize;
    let right_slots = right_words[head::CHUNKS] as usize;
    let right_pages = right_words[head::PAGES] as usize + head::FIXED_ENTRIES;
    let mut equal = true;
    let mut i = 0;
    'pages: for e in 0..pages {
        let listed = left_keys[slots + e];
        if listed != 0 {
            let page = PageId((listed - 1) as u32);
            let f = store::entry_of(right_keys, right_order, right_words, page);
            if f >= right_pages {
                equal = false;
                break 'pages;
            }
            // Stays: the new form is no plainer. The slots of a page begin where those of the page before end, and where they end is seen at the next slot alone.
            'chunks: while i < held {
                let s = left_order[i] as usize;
                let key = left_keys[s];
                if store::key_entry(key) > e {
                    break 'chunks;
                }
                let t = slot_beside(right_keys, right_order, right_words, f, key);
                for j in 0..256 {
                    if left_bytes[256 * s + j] != byte_beside(right_bytes, right_slots, t, j) {
                        equal = false;
                        break 'pages;
                    }
                }
                i += 1;
            }
        }
    }
    equal
}

// Whether two memories have equal bytes on every page and the same pages: each has what the other one has.
fn equal(
    left_bytes: &[u8],
    left_keys: &[u64],
    left_order: &[u32],
    left_words: &[u64],
    right_bytes: &[u8],
    right_keys: &[u64],
    right_order: &[u32],
    right_words: &[u64],
) -> bool
    requires well_formed { WellFormed (mem left_bytes.now left_keys.now left_order.now left_words.now) }
    requires well_formed_2 { WellFormed (mem right_bytes.now right_keys.now right_order.now right_words.now) }
    ensures { result ≡ alike (view_of (mem left_bytes.now left_keys.now left_order.now left_words.now)) (view_of (mem right_bytes.now right_keys.now right_order.now right_words.now)) }
{
    covered(
        left_bytes,
        left_keys,
        left_order,
        left_words,
        right_bytes,
        right_keys,
        right_order,
        right_words,
    ) && covered(
        right_bytes,
        right_keys,
        right_order,
        right_words,
        left_bytes,
        left_keys,
        left_order,
        left_words,
    )
}

pub fn compare(
    left_bytes: &[u8],
    left_keys: &[u64],
    left_order: &[u32],
    left_words: &[u64],
    right_bytes: &[u8],
    right_keys: &[u64],
    right_order: &[u32],
    right_words: &[u64],
) -> Result<bool, Refusal>
    requires well_formed { WellFormed (mem left_bytes.now left_keys.now left_order.now left_words.now) }
    requires well_formed_2 { WellFormed (mem right_bytes.now right_keys.now right_order.now right_words.now) }
    ensures { comparison_outcome result ≡ comparison_of (mem left_bytes.now left_keys.now left_order.now left_words.now) (mem right_bytes.now right_keys.now right_order.now right_words.now) }
{
    if !same_layout(left_words, right_words) {
        return Err(Refusal::Layout);
    }
    Ok(equal(
        left_bytes,
        left_keys,
        left_order,
        left_words,
        right_bytes,
        right_keys,
        right_order,
        right_words,
    ))
}
