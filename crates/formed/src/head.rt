// The lengths of the lent buffers, and the head: its layout and its counts.
ghost use Rattle.std.specs.Prelude.{◌≡◌, true, ◌≤◌, length};
ghost use Rattle.store.specs.Mem.{head_length, layout_of};
ghost use Rattle.formed.specs.Buffers.{lengths_fit};
ghost use Rattle.formed.specs.Formed.{sized, narrow, head_right};

use page_ids::{BasePage, Layout, PageId};
use store::head;

// How many numbers the head has, and what a word of each journal takes: 32 bytes and three numbers a journal.
const HEAD_LENGTH: u64 = head::LENGTH as u64;

const WORD_BYTES: u64 = 32 * head::JOURNAL_COUNT as u64;

const WORD_NUMBERS: u64 = 3 * head::JOURNAL_COUNT as u64;

// Whether the counts of chunks, of pages and of words of a journal are within their bounds, and the four lengths those that they ask for.
pub fn lengths_ok(
    bytes: usize,
    keys: usize,
    order: usize,
    words: usize,
    c: u64,
    p: u64,
    j: u64,
) -> bool
    ensures { result ≡ lengths_fit bytes keys order words c p j }
{
    1 <= c
        && c <= 65536
        && 1 <= p
        && p <= 4096
        && j <= 65536
        && bytes as u64 == 256 * c + WORD_BYTES * j
        && keys as u64 == c + p + head::FIXED_PAGES
        && order as u64 == 3 * c + p + head::FIXED_PAGES
        && words as u64 == HEAD_LENGTH + WORD_NUMBERS * j + store::pool_length(c)
}

// Whether the head's counts are within their bounds, and the buffers as long as they ask.
#[tactic(auto, unfolding(crate::specs::Formed::sized))]
pub fn sized_ok(bytes: &[u8], keys: &[u64], order: &[u32], words: &[u64]) -> bool
    ensures { result ≡ sized (length bytes.now) (length keys.now) (length order.now) words.now }
{
    words.len() >= head::LENGTH
        && lengths_ok(
            bytes.len(),
            keys.len(),
            order.len(),
            words.len(),
            words[head::CHUNKS],
            words[head::PAGES],
            words[head::JOURNAL_WORDS],
        )
}

// Whether the layout's numbers and the dynamic length have 32 bits.
pub fn narrow_ok(words: &[u64]) -> bool
    requires { head_length ≤ length words.now }
    ensures { result ≡ narrow words.now }
{
    words[..head::LAYOUT_LENGTH]
        .iter()
        .all(|number| *number <= 4294967295)
        && words[head::DYNAMIC_LENGTH] <= 4294967295
}

// The layout of a memory.
pub fn layout_of(words: &[u64]) -> Layout
    requires { (head_length ≤ length words.now) × (narrow words.now ≡ true) }
    ensures { result ≡ layout_of words.now }
{
    Layout {
        static_memory: PageId(words[head::STATIC_MEMORY] as u32),
        calldata: PageId(words[head::CALLDATA] as u32),
        bootloader_heap: PageId(words[head::BOOTLOADER_HEAP] as u32),
        bootloader_aux: PageId(words[head::BOOTLOADER_AUX] as u32),
        base: BasePage(words[head::BASE] as u32),
        stride: words[head::STRIDE] as u32,
    }
}

// Whether the head's numbers fit, and its layout keeps the rule of refusal 1.
#[tactic(auto, unfolding(crate::specs::Formed::head_right))]
pub fn head_ok(words: &[u64]) -> bool
    requires { head_length ≤ length words.now }
    ensures { result ≡ head_right words.now }
{
    narrow_ok(words) && !page_ids::bad_layout(layout_of(words))
}
