// The memory's calls, as a host makes them: opening, reads, writes and allocation, freeing, history, comparison.
ghost use Rattle.std.specs.Prelude.{[], length};
ghost use Rattle.outcome.specs.Outcome.{answered};
ghost use Rattle.word.specs.Value.{limbs_value};
ghost use Rattle.store.specs.Mem.{mem};
ghost use Rattle.view.specs.Calls.{Call, Value, nothing, answer_of, comparison_of, CallDoes, OpenDoes};
ghost use Rattle.page_ids.specs.Decode.{layout_from};
ghost use Rattle.opening.specs.Opening.{setting_from};
ghost use Rattle.abi.specs.Interface.{Gives, word_in, partial_in, number_in, marks_in, verdict_in, chunk_answer};

use abi::answers;
use abi::status::UNFIT;
use opening::Capacity;
use page_ids::{Address, PageId};

const CHUNK_BYTES: usize = 256;

// ---- opening

// Opens a memory in lent buffers, with calldata on its page.
pub fn zp_open(
    bytes: &mut [u8],
    keys: &mut [u64],
    order: &mut [u32],
    words: &mut [u64],
    static_memory: u32,
    calldata_page: u32,
    bootloader_heap: u32,
    bootloader_aux: u32,
    base: u32,
    stride: u32,
    chunks: u32,
    pages: u32,
    journal_words: u32,
    calldata: &[u8],
) -> u32
    ensures { OpenDoes (mem bytes.old keys.old order.old words.old) (setting_from (layout_from static_memory calldata_page bootloader_heap bootloader_aux base stride) chunks pages journal_words) calldata.now (answered result nothing) (mem bytes.new keys.new order.new words.new) }
{
    let layout = frames::layout_of(
        static_memory,
        calldata_page,
        bootloader_heap,
        bootloader_aux,
        base,
        stride,
    );
    let capacity = Capacity {
        chunks,
        pages,
        journal_words,
    };
    outcome::status(opening::open(bytes, keys, order, words, layout, capacity, calldata))
}

// ---- reads

pub fn zp_read_u256(
    bytes: &[u8],
    keys: &[u64],
    order: &[u32],
    words: &[u64],
    page: u32,
    address: u32,
    out: &mut [u64],
) -> u32
    ensures { let m = mem bytes.now keys.now order.now words.now in Gives 4 (answer_of m (Call.ReadWord page address)) word_in result out.old out.new }
{
    let read = reads::read_u256(bytes, keys, order, words, PageId(page), Address(address));
    answers::give_word(out, read)
}

pub fn zp_read_u256_partially(
    bytes: &[u8],
    keys: &[u64],
    order: &[u32],
    words: &[u64],
    page: u32,
    start: u32,
    end: u32,
    out: &mut [u64],
) -> u32
    ensures { let m = mem bytes.now keys.now order.now words.now in Gives 5 (answer_of m (Call.ReadPartial page start end)) partial_in result out.old out.new }
{
    let read = reads::read_u256_partially(
        bytes,
        keys,
        order,
        words,
        PageId(page),
        Address(start),
        Address(end),
    );
    answers::give_partial(out, read)
}

// An output of any other length than the range has is refused with 8, and none is unfit.
pub fn zp_read_range_big_endian(
    bytes: &[u8],
    keys: &[u64],
    order: &[u32],
    words: &[u64],
    page: u32,
    start: u32,
    end: u32,
    output: &mut [u8],
) -> u32
    ensures { let m = mem bytes.now keys.now order.now words.now in Gives (length output.old) (answer_of m (Call.ReadRange page start end (length output.old))) Value.bytes result output.old output.new }
{
    outcome::status(reads::read_range_big_endian(
        bytes,
        keys,
        order,
        words,
        PageId(page),
        Address(start),
        Address(end),
        output,
    ))
}

pub fn zp_read_byte(
    bytes: &[u8],
    keys: &[u64],
    order: &[u32],
    words: &[u64],
    page: u32,
    address: u32,
    out: &mut [u64],
) -> u32
    ensures { let m = mem bytes.now keys.now order.now words.now in Gives 1 (answer_of m (Call.ReadByte page address)) number_in result out.old out.new }
{
    let read = reads::read_byte(bytes, keys, order, words, PageId(page), Address(address));
    answers::give_byte(out, read)
}

pub fn zp_dynamic_len(
    bytes: &[u8],
    keys: &[u64],
    order: &[u32],
    words: &[u64],
    out: &mut [u64],
) -> u32
    ensures { let m = mem bytes.now keys.now order.now words.now in Gives 1 (answer_of m Call.DynamicLength) number_in result out.old out.new }
{
    let read = reads::dynamic_len(bytes, keys, order, words);
    answers::give_length(out, read)
}

pub fn zp_snapshot(bytes: &[u8], keys: &[u64], order: &[u32], words: &[u64], out: &mut [u64]) -> u32
    ensures { let m = mem bytes.now keys.now order.now words.now in Gives 2 (answer_of m Call.Snapshot) marks_in result out.old out.new }
{
    answers::give_marks(out, reads::snapshot(bytes, keys, order, words))
}

// Copies a chunk, held or not.
pub fn zp_chunk<'a>(
    bytes: &'a [u8],
    keys: &[u64],
    order: &[u32],
    words: &[u64],
    page: u32,
    number: u32,
    block: &'a [u8],
    output: &mut [u8],
) -> u32
    ensures { let m = mem bytes.now keys.now order.now words.now in Gives 256 (chunk_answer m page number block.now) Value.bytes result output.old output.new }
{
    if output.len() != CHUNK_BYTES {
        return UNFIT;
    }
    match reads::chunk_check(bytes, keys, order, words, PageId(page), number, block) {
        Ok(()) => {
            let chunk = read_steps::chunk_of(
                bytes,
                keys,
                order,
                words,
                PageId(page),
                number,
                block,
            );
            answers::copy(output, chunk);
            0
        }
        Err(refusal) => u32::from(refusal),
    }
}

// ---- writes and allocation

pub fn zp_write_u256(
    bytes: &mut [u8],
    keys: &mut [u64],
    order: &mut [u32],
    words: &mut [u64],
    page: u32,
    address: u32,
    limb0: u64,
    limb1: u64,
    limb2: u64,
    limb3: u64,
) -> u32
    ensures { CallDoes (mem bytes.old keys.old order.old words.old) (Call.WriteWord page address (limbs_value limb0 limb1 limb2 limb3)) (answered result nothing) (mem bytes.new keys.new order.new words.new) }
{
    let word = frames::word_of(limb0, limb1, limb2, limb3);
    outcome::status(writes::write_u256(
        bytes,
        keys,
        order,
        words,
        PageId(page),
        Address(address),
        word,
    ))
}

pub fn zp_write_bytes(
    bytes: &mut [u8],
    keys: &mut [u64],
    order: &mut [u32],
    words: &mut [u64],
    page: u32,
    start: u32,
    src: &[u8],
) -> u32
    ensures { CallDoes (mem bytes.old keys.old order.old words.old) (Call.WriteBytes page start src.now) (answered result nothing) (mem bytes.new keys.new order.new words.new) }
{
    outcome::status(writes::write_bytes(
        bytes,
        keys,
        order,
        words,
        PageId(page),
        Address(start),
        src,
    ))
}

pub fn zp_allocate_at(
    bytes: &mut [u8],
    keys: &mut [u64],
    order: &mut [u32],
    words: &mut [u64],
    page: u32,
) -> u32
    ensures { CallDoes (mem bytes.old keys.old order.old words.old) (Call.Allocate page []) (answered result nothing) (mem bytes.new keys.new order.new words.new) }
{
    outcome::status(writes::allocate_at(bytes, keys, order, words, PageId(page)))
}

pub fn zp_allocate_with_content_at(
    bytes: &mut [u8],
    keys: &mut [u64],
    order: &mut [u32],
    words: &mut [u64],
    page: u32,
    content: &[u8],
) -> u32
    ensures { CallDoes (mem bytes.old keys.old order.old words.old) (Call.Allocate page content.now) (answered result nothing) (mem bytes.new keys.new order.new words.new) }
{
    outcome::status(writes::allocate_with_content_at(
        bytes,
        keys,
        order,
        words,
        PageId(page),
        content,
    ))
}

// ---- freeing

pub fn zp_deallocate(
    bytes: &mut [u8],
    keys: &mut [u64],
    order: &mut [u32],
    words: &mut [u64],
    page: u32,
) -> u32
    ensures { CallDoes (mem bytes.old keys.old order.old words.old) (Call.Free page) (answered result nothing) (mem bytes.new keys.new order.new words.new) }
{
    outcome::status(freeing::deallocate(bytes, keys, order, words, PageId(page)))
}

pub fn zp_compact_to_window(
    bytes: &mut [u8],
    keys: &mut [u64],
    order: &mut [u32],
    words: &mut [u64],
    page: u32,
    start: u32,
    length: u32,
) -> u32
    ensures { CallDoes (mem bytes.old keys.old order.old words.old) (Call.Window page start length) (answered result nothing) (mem bytes.new keys.new order.new words.new) }
{
    outcome::status(freeing::compact_to_window(
        bytes,
        keys,
        order,
        words,
        PageId(page),
        Address(start),
        length,
    ))
}

pub fn zp_truncate_dynamic_to(
    bytes: &mut [u8],
    keys: &mut [u64],
    order: &mut [u32],
    words: &mut [u64],
    len: u64,
) -> u32
    ensures { CallDoes (mem bytes.old keys.old order.old words.old) (Call.Truncate len) (answered result nothing) (mem bytes.new keys.new order.new words.new) }
{
    outcome::status(freeing::truncate_dynamic_to(bytes, keys, order, words, len))
}

// ---- history

pub fn zp_rollback(
    bytes: &mut [u8],
    keys: &[u64],
    order: &[u32],
    words: &mut [u64],
    heap: u64,
    aux: u64,
) -> u32
    ensures { CallDoes (mem bytes.old keys.now order.now words.old) (Call.Rollback heap aux) (answered result nothing) (mem bytes.new keys.now order.now words.new) }
{
    outcome::status(history::rollback(bytes, keys, order, words, heap, aux))
}

pub fn zp_delete_history(bytes: &[u8], keys: &[u64], order: &[u32], words: &mut [u64]) -> u32
    ensures { CallDoes (mem bytes.now keys.now order.now words.old) (Call.DeleteHistory) (answered result nothing) (mem bytes.now keys.now order.now words.new) }
{
    outcome::status(history::delete_history(bytes, keys, order, words))
}

// ---- comparison

pub fn zp_compare(
    bytes: &[u8],
    keys: &[u64],
    order: &[u32],
    words: &[u64],
    other_bytes: &[u8],
    other_keys: &[u64],
    other_order: &[u32],
    other_words: &[u64],
    out: &mut [u64],
) -> u32
    ensures { Gives 1 (comparison_of (mem bytes.now keys.now order.now words.now) (mem other_bytes.now other_keys.now other_order.now other_words.now)) verdict_in result out.old out.new }
{
    let comparison = compare::compare(
        bytes,
        keys,
        order,
        words,
        other_bytes,
        other_keys,
        other_order,
        other_words,
    );
    answers::give_verdict(out, comparison)
}
