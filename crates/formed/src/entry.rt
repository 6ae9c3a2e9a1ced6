// The page entries: 0 to 3 are the fixed pages, the others are free or list a dynamic page.
ghost use Rattle.std.specs.Prelude.{◌≡◌, true, ◌&&◌, ◌<◌, ◌≤◌, ltb, length};
ghost use Rattle.index.specs.Index.{all};
ghost use Rattle.store.specs.Mem.{head_length, layout_of};
ghost use Rattle.formed.specs.Pages.{dynamic, group};
ghost use Rattle.formed.specs.Formed.{narrow, entry_right};

use page_ids::{DecodedPage, Layout, PageId};
use store::head;

// Whether a page is dynamic, of a group below n.
fn page_ok(layout: Layout, n: u64, page: PageId) -> bool
    ensures { result ≡ (dynamic layout page.0 && ltb (group layout page.0) n) }
{
    let Some(decoded) = page_ids::decode_page(layout, page) else {
        return false;
    };
    match decoded {
        DecodedPage::Dynamic(_, group) => (group as u64) < n,
        _ => false,
    }
}

// Whether entry e is right.
fn entry_ok(entries: &[u64], words: &[u64], layout: Layout, e: usize) -> bool
    requires { (e < length entries.now) × (head_length ≤ length words.now) × (layout ≡ layout_of words.now) }
    ensures { result ≡ entry_right words.now entries.now e }
{
    let x = entries[e];
    if e < head::FIXED_ENTRIES {
        x != 0 && x - 1 == words[e]
    } else {
        x == 0
            || x <= 4294967296
                && page_ok(layout, words[head::DYNAMIC_LENGTH], PageId((x - 1) as u32))
    }
}

// Whether every entry is right.
pub fn pages_ok(entries: &[u64], words: &[u64]) -> bool
    requires { (head_length ≤ length words.now) × (narrow words.now ≡ true) }
    ensures { result ≡ all (entry_right words.now entries.now) (length entries.now) }
{
    let layout = crate::head::layout_of(words);
    (0..entries.len()).all(|e| entry_ok(entries, words, layout, e))
}
