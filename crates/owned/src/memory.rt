// The memory's calls: opening, reads, writes and allocation, freeing, history, comparison.
ghost use Rattle.std.specs.Prelude.{[], false, ◌≡◌, length, ◌-◌};
ghost use Rattle.outcome.specs.Outcome.{refused, done, answered};
ghost use Rattle.compare.specs.Verdict.{comparison_outcome};
ghost use Rattle.word.specs.Value.{value, limbs_value, big_endian};
ghost use Rattle.store.specs.Mem.{mem};
ghost use Rattle.formed.specs.Formed.{well_formed};
ghost use Rattle.formed.specs.WellFormed.{WellFormed};
ghost use Rattle.view.specs.View.{view_of};
ghost use Rattle.view.specs.Steps.{run, padded};
ghost use Rattle.view.specs.Checks.{on_memory, partial_checks};
ghost use Rattle.reads.specs.Calls.{ReadDoes};
ghost use Rattle.view.specs.Calls.{Call, Value, nothing, answer_of, comparison_of, CallDoes, OpenDoes};
ghost use Rattle.page_ids.specs.Decode.{layout_from};
ghost use Rattle.opening.specs.Opening.{setting_from};
ghost use Rattle.abi.specs.Interface.{Gives, chunk_answer};
ghost use Rattle.owned.specs.Answers.{word_and_count, partial_outcome, compared_outcome};

use abi::answers;
use abi::status::UNFIT;
use opening::Capacity;
use outcome::Refusal;
use page_ids::{Address, PageId};
use store::head;
use word::Word;

const CHUNK_BYTES: usize = 256;

// Whether the memory is well formed: the test that every function of the library's C interface makes first if it is lent a memory.
pub fn own_well_formed(bytes: &[u8], keys: &[u64], order: &[u32], words: &[u64]) -> bool
    ensures { result ≡ well_formed (mem bytes.now keys.now order.now words.now) }
{
    formed::well_formed(bytes, keys, order, words)
}

// ---- opening

// Opens a memory in buffers of the right lengths, with calldata on its page. It requires nothing of what they hold.
pub fn own_open(
    bytes: &mut [u8],
    keys: &mut [u64],
    order: &mut [u32],
    words: &mut [u64],
    static_memory: u32,
    calldata_page: u32,
    bootloader_heap: u32,
    bootloader_aux: u32,
    base: u32,
    stride: u32,
    chunks: u32,
    pages: u32,
    journal_words: u32,
    calldata: &[u8],
) -> u32
    ensures { OpenDoes (mem bytes.old keys.old order.old words.old) (setting_from (layout_from static_memory calldata_page bootloader_heap bootloader_aux base stride) chunks pages journal_words) calldata.now (answered result nothing) (mem bytes.new keys.new order.new words.new) }
{
    let layout = frames::layout_of(
        static_memory,
        calldata_page,
        bootloader_heap,
        bootloader_aux,
        base,
        stride,
    );
    let capacity = Capacity {
        chunks,
        pages,
        journal_words,
    };
    outcome::status(opening::open(bytes, keys, order, words, layout, capacity, calldata))
}

// ---- reads

// A word of the bytes of a range, and how many they are: these lead it, and zeros follow. Both are 0 where the read is refused.
// Stays: the C interface.
#[repr(C)]
#[derive(Clone, Copy)]
pub struct PartialRead {
    pub refusal: u32,
    pub word: Word,
    pub bytes_read: u32,
}

// The lengths of the journals: what a rollback goes back to. Both are 0 where the call is refused.
// Stays: the C interface.
#[repr(C)]
#[derive(Clone, Copy)]
pub struct Marks {
    pub refusal: u32,
    pub heap: u32,
    pub aux: u32,
}

// A word in one piece that a hint knows is read here. All else is behind one call.
pub fn own_read_u256(
    bytes: &[u8],
    keys: &[u64],
    order: &[u32],
    words: &[u64],
    page: u32,
    address: u32,
) -> Word
    requires { WellFormed (mem bytes.now keys.now order.now words.now) }
    ensures { let m = mem bytes.now keys.now order.now words.now in CallDoes m (Call.ReadWord page address) (done (Value.number (value result.limbs))) m }
{
    let s = hints::in_one_piece(keys, order, words, PageId(page), Address(address));
    if s >= words[head::CHUNKS] as usize {
        let word = reads::on_formed::read_u256(
            bytes,
            keys,
            order,
            words,
            PageId(page),
            Address(address),
        );
        // taken apart, so that the answer of this path is not the memory in which the other one makes its own
        let limbs = word.limbs;
        return Word { limbs: limbs };
    }
    word::from_big_endian(hints::word_at(bytes, 256 * s + (address % 256) as usize))
}

pub fn own_read_u256_partially(
    bytes: &[u8],
    keys: &[u64],
    order: &[u32],
    words: &[u64],
    page: u32,
    start: u32,
    end: u32,
) -> PartialRead
    requires { WellFormed (mem bytes.now keys.now order.now words.now) }
    ensures { let m = mem bytes.now keys.now order.now words.now in ReadDoes (on_memory m (partial_checks start end) (big_endian (padded (run (view_of m) page start (end - start))), end - start)) (partial_outcome result) (word_and_count result) (0, 0) }
{
    let read = reads::on_formed::read_u256_partially(
        bytes,
        keys,
        order,
        words,
        PageId(page),
        Address(start),
        Address(end),
    );
    match read {
        Ok(read) => PartialRead {
            refusal: 0,
            word: read.word,
            bytes_read: read.bytes_read,
        },
        Err(refusal) => PartialRead {
            refusal: u32::from(refusal),
            word: execution::no_word(),
            bytes_read: 0,
        },
    }
}

// An output of any other length than the range has is refused with 8.
pub fn own_read_range_big_endian(
    bytes: &[u8],
    keys: &[u64],
    order: &[u32],
    words: &[u64],
    page: u32,
    start: u32,
    end: u32,
    output: &mut [u8],
) -> u32
    requires { WellFormed (mem bytes.now keys.now order.now words.now) }
    ensures { let m = mem bytes.now keys.now order.now words.now in Gives (length output.old) (answer_of m (Call.ReadRange page start end (length output.old))) Value.bytes result output.old output.new }
{
    outcome::status(reads::on_formed::read_range_big_endian(
        bytes,
        keys,
        order,
        words,
        PageId(page),
        Address(start),
        Address(end),
        output,
    ))
}

pub fn own_read_byte(
    bytes: &[u8],
    keys: &[u64],
    order: &[u32],
    words: &[u64],
    page: u32,
    address: u32,
) -> u8
    requires { WellFormed (mem bytes.now keys.now order.now words.now) }
    ensures { let m = mem bytes.now keys.now order.now words.now in CallDoes m (Call.ReadByte page address) (done (Value.number result)) m }
{
    reads::on_formed::read_byte(bytes, keys, order, words, PageId(page), Address(address))
}

pub fn own_dynamic_len(bytes: &[u8], keys: &[u64], order: &[u32], words: &[u64]) -> u32
    requires { WellFormed (mem bytes.now keys.now order.now words.now) }
    ensures { let m = mem bytes.now keys.now order.now words.now in CallDoes m Call.DynamicLength (done (Value.number result)) m }
{
    reads::on_formed::dynamic_len(bytes, keys, order, words)
}

pub fn own_snapshot(bytes: &[u8], keys: &[u64], order: &[u32], words: &[u64]) -> Marks
    requires { WellFormed (mem bytes.now keys.now order.now words.now) }
    ensures { let m = mem bytes.now keys.now order.now words.now in CallDoes m Call.Snapshot (answered result.refusal (Value.lengths result.heap result.aux)) m }
{
    let marks = reads::on_formed::snapshot(bytes, keys, order, words);
    Marks {
        refusal: 0,
        heap: marks.heap,
        aux: marks.aux,
    }
}

// Copies a chunk, held or not.
pub fn own_chunk<'a>(
    bytes: &'a [u8],
    keys: &[u64],
    order: &[u32],
    words: &[u64],
    page: u32,
    number: u32,
    block: &'a [u8],
    output: &mut [u8],
) -> u32
    requires { WellFormed (mem bytes.now keys.now order.now words.now) }
    ensures { let m = mem bytes.now keys.now order.now words.now in Gives 256 (chunk_answer m page number block.now) Value.bytes result output.old output.new }
{
    if output.len() != CHUNK_BYTES {
        return UNFIT;
    }
    match reads::on_formed::chunk_check(bytes, keys, order, words, PageId(page), number, block) {
        Ok(()) => {
            let chunk = read_steps::chunk_of(
                bytes,
                keys,
                order,
                words,
                PageId(page),
                number,
                block,
            );
            answers::copy(output, chunk);
            0
        }
        Err(refusal) => u32::from(refusal),
    }
}

// ---- writes and allocation

// A word in one piece that a hint knows, on a page without a journal, is written here. All else is behind a call: one for a page with a journal, one for a word in one chunk that no hint knows, one for a word over two chunks.
// `write_known` in execute.rt does the first for stores. Behind one function for both the compiler would inline it in neither.
pub fn own_write_u256(
    bytes: &mut [u8],
    keys: &mut [u64],
    order: &mut [u32],
    words: &mut [u64],
    page: u32,
    address: u32,
    limb0: u64,
    limb1: u64,
    limb2: u64,
    limb3: u64,
) -> u32
    requires { WellFormed (mem bytes.old keys.old order.old words.old) }
    ensures { CallDoes (mem bytes.old keys.old order.old words.old) (Call.WriteWord page address (limbs_value limb0 limb1 limb2 limb3)) (answered result nothing) (mem bytes.new keys.new order.new words.new) }
{
    let page = PageId(page);
    let address = Address(address);
    let s = hints::in_one_piece(keys, order, words, page, address);
    if s < words[head::CHUNKS] as usize {
        if hints::has_no_journal(words, page) {
            let value = word::to_big_endian(frames::word_of(limb0, limb1, limb2, limb3));
            bodies::copy(&value, 0, bytes, 256 * s + (address.0 % 256) as usize, 32);
            return 0;
        }
        let word = frames::word_of(limb0, limb1, limb2, limb3);
        let t = s + ((address.0 % 256 + 31) / 256) as usize;
        return outcome::status(word_steps::write_found(
            bytes, keys, order, words, page, address, s, t, word,
        ));
    }
    let word = frames::word_of(limb0, limb1, limb2, limb3);
    // no hint knows the one chunk of such a word, so its page is searched for at once
    if address.0 % 256 <= 224 {
        return outcome::status(write_steps::write_searched(
            bytes, keys, order, words, page, address, word,
        ));
    }
    outcome::status(write_steps::write_word(bytes, keys, order, words, page, address, word))
}

pub fn own_write_bytes(
    bytes: &mut [u8],
    keys: &mut [u64],
    order: &mut [u32],
    words: &mut [u64],
    page: u32,
    start: u32,
    src: &[u8],
) -> u32
    requires { WellFormed (mem bytes.old keys.old order.old words.old) }
    ensures { CallDoes (mem bytes.old keys.old order.old words.old) (Call.WriteBytes page start src.now) (answered result nothing) (mem bytes.new keys.new order.new words.new) }
{
    outcome::status(writes::on_formed::write_bytes(
        bytes,
        keys,
        order,
        words,
        PageId(page),
        Address(start),
        src,
    ))
}

pub fn own_allocate_at(
    bytes: &mut [u8],
    keys: &mut [u64],
    order: &mut [u32],
    words: &mut [u64],
    page: u32,
) -> u32
    requires { WellFormed (mem bytes.old keys.old order.old words.old) }
    ensures { CallDoes (mem bytes.old keys.old order.old words.old) (Call.Allocate page []) (answered result nothing) (mem bytes.new keys.new order.new words.new) }
{
    outcome::status(writes::on_formed::allocate_at(bytes, keys, order, words, PageId(page)))
}

pub fn own_allocate_with_content_at(
    bytes: &mut [u8],
    keys: &mut [u64],
    order: &mut [u32],
    words: &mut [u64],
    page: u32,
    content: &[u8],
) -> u32
    requires { WellFormed (mem bytes.old keys.old order.old words.old) }
    ensures { CallDoes (mem bytes.old keys.old order.old words.old) (Call.Allocate page content.now) (answered result nothing) (mem bytes.new keys.new order.new words.new) }
{
    outcome::status(writes::on_formed::allocate_with_content_at(
        bytes,
        keys,
        order,
        words,
        PageId(page),
        content,
    ))
}

// ---- freeing

pub fn own_deallocate(
    bytes: &mut [u8],
    keys: &mut [u64],
    order: &mut [u32],
    words: &mut [u64],
    page: u32,
) -> u32
    requires { WellFormed (mem bytes.old keys.old order.old words.old) }
    ensures { CallDoes (mem bytes.old keys.old order.old words.old) (Call.Free page) (answered result nothing) (mem bytes.new keys.new order.new words.new) }
{
    outcome::status(freeing::on_formed::deallocate(bytes, keys, order, words, PageId(page)))
}

pub fn own_compact_to_window(
    bytes: &mut [u8],
    keys: &mut [u64],
    order: &mut [u32],
    words: &mut [u64],
    page: u32,
    start: u32,
    length: u32,
) -> u32
    requires { WellFormed (mem bytes.old keys.old order.old words.old) }
    ensures { CallDoes (mem bytes.old keys.old order.old words.old) (Call.Window page start length) (answered result nothing) (mem bytes.new keys.new order.new words.new) }
{
    outcome::status(freeing::on_formed::compact_to_window(
        bytes,
        keys,
        order,
        words,
        PageId(page),
        Address(start),
        length,
    ))
}

pub fn own_truncate_dynamic_to(
    bytes: &mut [u8],
    keys: &mut [u64],
    order: &mut [u32],
    words: &mut [u64],
    len: u64,
) -> u32
    requires { WellFormed (mem bytes.old keys.old order.old words.old) }
    ensures { CallDoes (mem bytes.old keys.old order.old words.old) (Call.Truncate len) (answered result nothing) (mem bytes.new keys.new order.new words.new) }
{
    outcome::status(freeing::on_formed::truncate_dynamic_to(bytes, keys, order, words, len))
}

// ---- history

pub fn own_rollback(
    bytes: &mut [u8],
    keys: &[u64],
    order: &[u32],
    words: &mut [u64],
    heap: u64,
    aux: u64,
) -> u32
    requires { WellFormed (mem bytes.old keys.now order.now words.old) }
    ensures { CallDoes (mem bytes.old keys.now order.now words.old) (Call.Rollback heap aux) (answered result nothing) (mem bytes.new keys.now order.now words.new) }
{
    outcome::status(history::on_formed::rollback(bytes, keys, order, words, heap, aux))
}

pub fn own_delete_history(bytes: &[u8], keys: &[u64], order: &[u32], words: &mut [u64]) -> u32
    requires { WellFormed (mem bytes.now keys.now order.now words.old) }
    ensures { CallDoes (mem bytes.now keys.now order.now words.old) Call.DeleteHistory (answered result nothing) (mem bytes.now keys.now order.now words.new) }
{
    outcome::status(history::on_formed::delete_history(bytes, keys, order, words))
}

// ---- comparison

// Whether two memories are equal, or a refusal.
// Stays: the C interface.
#[repr(C)]
#[derive(Clone, Copy)]
pub struct Compared {
    pub refusal: u32,
    pub equal: bool,
}

fn verdict(comparison: Result<bool, Refusal>) -> Compared
    ensures result_value { compared_outcome result ≡ comparison_outcome comparison }
    ensures equal_value { (result.refusal ≡ 0 → ⊥) → result.equal ≡ false }
{
    match comparison {
        Ok(equal) => Compared { refusal: 0, equal },
        Err(refusal) => Compared {
            refusal: u32::from(refusal),
            equal: false,
        },
    }
}

pub fn own_compare(
    bytes: &[u8],
    keys: &[u64],
    order: &[u32],
    words: &[u64],
    other_bytes: &[u8],
    other_keys: &[u64],
    other_order: &[u32],
    other_words: &[u64],
) -> Compared
    requires well_formed { WellFormed (mem bytes.now keys.now order.now words.now) }
    requires well_formed_2 { WellFormed (mem other_bytes.now other_keys.now other_order.now other_words.now) }
    ensures result_value { compared_outcome result ≡ comparison_of (mem bytes.now keys.now order.now words.now) (mem other_bytes.now other_keys.now other_order.now other_words.now) }
    ensures equal_value { (result.refusal ≡ 0 → ⊥) → result.equal ≡ false }
{
    verdict(compare::on_formed::compare(
        bytes,
        keys,
        order,
        words,
        other_bytes,
        other_keys,
        other_order,
        other_words,
    ))
}
