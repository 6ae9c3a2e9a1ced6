// The memory's calls: opening, reads, writes and allocation, freeing, history, comparison.
ghost use Rattle.std.specs.Prelude.{[], false, ◌≡◌, length, ◌-◌};
ghost use Rattle.outcome.specs.Outcome.{done, answered};
ghost use Rattle.word.specs.Value.{value, limbs_value, big_endian};
ghost use Rattle.store.specs.Mem.{mem};
ghost use Rattle.formed.specs.Formed.{well_formed};
ghost use Rattle.formed.specs.WellFormed.{WellFormed};
ghost use Rattle.view.specs.View.{view_of};
ghost use Rattle.view.specs.Steps.{run, padded};
ghost use Rattle.view.specs.Checks.{on_memory, partial_checks};
ghost use Rattle.reads.specs.Calls.{ReadDoes};
ghost use Rattle.view.specs.Calls.{Call, Value, nothing, answer_of, comparison_of, CallDoes, OpenDoes};
ghost use Rattle.page_ids.specs.Decode.{layout_from};
ghost use Rattle.opening.specs.Opening.{setting_from};
ghost use Rattle.abi.specs.Interface.{Gives, chunk_answer};
ghost use Rattle.owned.specs.Answers.{word_and_count, partial_outcome, compared_outcome};

use owned::memory::{Compared, Marks, PartialRead};
use word::Word;

#[unsafe(no_mangle)]
pub extern "C" fn own_well_formed(bytes: &[u8], keys: &[u64], order: &[u32], words: &[u64]) -> bool
    ensures { result ≡ well_formed (mem bytes.now keys.now order.now words.now) }
{
    owned::memory::own_well_formed(bytes, keys, order, words)
}

#[unsafe(no_mangle)]
pub extern "C" fn own_open(
    bytes: &mut [u8],
    keys: &mut [u64],
    order: &mut [u32],
    words: &mut [u64],
    static_memory: u32,
    calldata_page: u32,
    bootloader_heap: u32,
    bootloader_aux: u32,
    base: u32,
    stride: u32,
    chunks: u32,
    pages: u32,
    journal_words: u32,
    calldata: &[u8],
) -> u32
    ensures { OpenDoes (mem bytes.old keys.old order.old words.old) (setting_from (layout_from static_memory calldata_page bootloader_heap bootloader_aux base stride) chunks pages journal_words) calldata.now (answered result nothing) (mem bytes.new keys.new order.new words.new) }
{
    owned::memory::own_open(
        bytes,
        keys,
        order,
        words,
        static_memory,
        calldata_page,
        bootloader_heap,
        bootloader_aux,
        base,
        stride,
        chunks,
        pages,
        journal_words,
        calldata,
    )
}

#[unsafe(no_mangle)]
pub extern "C" fn own_read_u256(
    bytes: &[u8],
    keys: &[u64],
    order: &[u32],
    words: &[u64],
    page: u32,
    address: u32,
) -> Word
    requires { WellFormed (mem bytes.now keys.now order.now words.now) }
    ensures { let m = mem bytes.now keys.now order.now words.now in CallDoes m (Call.ReadWord page address) (done (Value.number (value result.limbs))) m }
{
    owned::memory::own_read_u256(bytes, keys, order, words, page, address)
}

#[unsafe(no_mangle)]
pub extern "C" fn own_read_u256_partially(
    bytes: &[u8],
    keys: &[u64],
    order: &[u32],
    words: &[u64],
    page: u32,
    start: u32,
    end: u32,
) -> PartialRead
    requires { WellFormed (mem bytes.now keys.now order.now words.now) }
    ensures { let m = mem bytes.now keys.now order.now words.now in ReadDoes (on_memory m (partial_checks start end) (big_endian (padded (run (view_of m) page start (end - start))), end - start)) (partial_outcome result) (word_and_count result) (0, 0) }
{
    owned::memory::own_read_u256_partially(bytes, keys, order, words, page, start, end)
}

#[unsafe(no_mangle)]
pub extern "C" fn own_read_range_big_endian(
    bytes: &[u8],
    keys: &[u64],
    order: &[u32],
    words: &[u64],
    page: u32,
    start: u32,
    end: u32,
    output: &mut [u8],
) -> u32
    requires { WellFormed (mem bytes.now keys.now order.now words.now) }
    ensures { let m = mem bytes.now keys.now order.now words.now in Gives (length output.old) (answer_of m (Call.ReadRange page start end (length output.old))) Value.bytes result output.old output.new }
{
    owned::memory::own_read_range_big_endian(bytes, keys, order, words, page, start, end, output)
}

#[unsafe(no_mangle)]
pub extern "C" fn own_read_byte(
    bytes: &[u8],
    keys: &[u64],
    order: &[u32],
    words: &[u64],
    page: u32,
    address: u32,
) -> u8
    requires { WellFormed (mem bytes.now keys.now order.now words.now) }
    ensures { let m = mem bytes.now keys.now order.now words.now in CallDoes m (Call.ReadByte page address) (done (Value.number result)) m }
{
    owned::memory::own_read_byte(bytes, keys, order, words, page, address)
}

#[unsafe(no_mangle)]
pub extern "C" fn own_dynamic_len(bytes: &[u8], keys: &[u64], order: &[u32], words: &[u64]) -> u32
    requires { WellFormed (mem bytes.now keys.now order.now words.now) }
    ensures { let m = mem bytes.now keys.now order.now words.now in CallDoes m Call.DynamicLength (done (Value.number result)) m }
{
    owned::memory::own_dynamic_len(bytes, keys, order, words)
}

#[unsafe(no_mangle)]
pub extern "C" fn own_snapshot(bytes: &[u8], keys: &[u64], order: &[u32], words: &[u64]) -> Marks
    requires { WellFormed (mem bytes.now keys.now order.now words.now) }
    ensures { let m = mem bytes.now keys.now order.now words.now in CallDoes m Call.Snapshot (answered result.refusal (Value.lengths result.heap result.aux)) m }
{
    owned::memory::own_snapshot(bytes, keys, order, words)
}

#[unsafe(no_mangle)]
pub extern "C" fn own_chunk<'a>(
    bytes: &'a [u8],
    keys: &[u64],
    order: &[u32],
    words: &[u64],
    page: u32,
    number: u32,
    block: &'a [u8],
    output: &mut [u8],
) -> u32
    requires { WellFormed (mem bytes.now keys.now order.now words.now) }
    ensures { let m = mem bytes.now keys.now order.now words.now in Gives 256 (chunk_answer m page number block.now) Value.bytes result output.old output.new }
{
    owned::memory::own_chunk(bytes, keys, order, words, page, number, block, output)
}

#[unsafe(no_mangle)]
pub extern "C" fn own_write_u256(
    bytes: &mut [u8],
    keys: &mut [u64],
    order: &mut [u32],
    words: &mut [u64],
    page: u32,
    address: u32,
    limb0: u64,
    limb1: u64,
    limb2: u64,
    limb3: u64,
) -> u32
    requires { WellFormed (mem bytes.old keys.old order.old words.old) }
    ensures { CallDoes (mem bytes.old keys.old order.old words.old) (Call.WriteWord page address (limbs_value limb0 limb1 limb2 limb3)) (answered result nothing) (mem bytes.new keys.new order.new words.new) }
{
    owned::memory::own_write_u256(
        bytes, keys, order, words, page, address, limb0, limb1, limb2, limb3,
    )
}

#[unsafe(no_mangle)]
pub extern "C" fn own_write_bytes(
    bytes: &mut [u8],
    keys: &mut [u64],
    order: &mut [u32],
    words: &mut [u64],
    page: u32,
    start: u32,
    src: &[u8],
) -> u32
    requires { WellFormed (mem bytes.old keys.old order.old words.old) }
    ensures { CallDoes (mem bytes.old keys.old order.old words.old) (Call.WriteBytes page start src.now) (answered result nothing) (mem bytes.new keys.new order.new words.new) }
{
    owned::memory::own_write_bytes(bytes, keys, order, words, page, start, src)
}

#[unsafe(no_mangle)]
pub extern "C" fn own_allocate_at(
    bytes: &mut [u8],
    keys: &mut [u64],
    order: &mut [u32],
    words: &mut [u64],
    page: u32,
) -> u32
    requires { WellFormed (mem bytes.old keys.old order.old words.old) }
    ensures { CallDoes (mem bytes.old keys.old order.old words.old) (Call.Allocate page []) (answered result nothing) (mem bytes.new keys.new order.new words.new) }
{
    owned::memory::own_allocate_at(bytes, keys, order, words, page)
}

#[unsafe(no_mangle)]
pub extern "C" fn own_allocate_with_content_at(
    bytes: &mut [u8],
    keys: &mut [u64],
    order: &mut [u32],
    words: &mut [u64],
    page: u32,
    content: &[u8],
) -> u32
    requires { WellFormed (mem bytes.old keys.old order.old words.old) }
    ensures { CallDoes (mem bytes.old keys.old order.old words.old) (Call.Allocate page content.now) (answered result nothing) (mem bytes.new keys.new order.new words.new) }
{
    owned::memory::own_allocate_with_content_at(bytes, keys, order, words, page, content)
}

#[unsafe(no_mangle)]
pub extern "C" fn own_deallocate(
    bytes: &mut [u8],
    keys: &mut [u64],
    order: &mut [u32],
    words: &mut [u64],
    page: u32,
) -> u32
    requires { WellFormed (mem bytes.old keys.old order.old words.old) }
    ensures { CallDoes (mem bytes.old keys.old order.old words.old) (Call.Free page) (answered result nothing) (mem bytes.new keys.new order.new words.new) }
{
    owned::memory::own_deallocate(bytes, keys, order, words, page)
}

#[unsafe(no_mangle)]
pub extern "C" fn own_compact_to_window(
    bytes: &mut [u8],
    keys: &mut [u64],
    order: &mut [u32],
    words: &mut [u64],
    page: u32,
    start: u32,
    length: u32,
) -> u32
    requires { WellFormed (mem bytes.old keys.old order.old words.old) }
    ensures { CallDoes (mem bytes.old keys.old order.old words.old) (Call.Window page start length) (answered result nothing) (mem bytes.new keys.new order.new words.new) }
{
    owned::memory::own_compact_to_window(bytes, keys, order, words, page, start, length)
}

#[unsafe(no_mangle)]
pub extern "C" fn own_truncate_dynamic_to(
    bytes: &mut [u8],
    keys: &mut [u64],
    order: &mut [u32],
    words: &mut [u64],
    len: u64,
) -> u32
    requires { WellFormed (mem bytes.old keys.old order.old words.old) }
    ensures { CallDoes (mem bytes.old keys.old order.old words.old) (Call.Truncate len) (answered result nothing) (mem bytes.new keys.new order.new words.new) }
{
    owned::memory::own_truncate_dynamic_to(bytes, keys, order, words, len)
}

#[unsafe(no_mangle)]
pub extern "C" fn own_rollback(
    bytes: &mut [u8],
    keys: &[u64],
    order: &[u32],
    words: &mut [u64],
    heap: u64,
    aux: u64,
) -> u32
    requires { WellFormed (mem bytes.old keys.now order.now words.old) }
    ensures { CallDoes (mem bytes.old keys.now order.now words.old) (Call.Rollback heap aux) (answered result nothing) (mem bytes.new keys.now order.now words.new) }
{
    owned::memory::own_rollback(bytes, keys, order, words, heap, aux)
}

#[unsafe(no_mangle)]
pub extern "C" fn own_delete_history(
    bytes: &[u8],
    keys: &[u64],
    order: &[u32],
    words: &mut [u64],
) -> u32
    requires { WellFormed (mem bytes.now keys.now order.now words.old) }
    ensures { CallDoes (mem bytes.now keys.now order.now words.old) Call.DeleteHistory (answered result nothing) (mem bytes.now keys.now order.now words.new) }
{
    owned::memory::own_delete_history(bytes, keys, order, words)
}

#[unsafe(no_mangle)]
pub extern "C" fn own_compare(
    bytes: &[u8],
    keys: &[u64],
    order: &[u32],
    words: &[u64],
    other_bytes: &[u8],
    other_keys: &[u64],
    other_order: &[u32],
    other_words: &[u64],
) -> Compared
    requires well_formed { WellFormed (mem bytes.now keys.now order.now words.now) }
    requires well_formed_2 { WellFormed (mem other_bytes.now other_keys.now other_order.now other_words.now) }
    ensures result_value { compared_outcome result ≡ comparison_of (mem bytes.now keys.now order.now words.now) (mem other_bytes.now other_keys.now other_order.now other_words.now) }
    ensures equal_value { (result.refusal ≡ 0 → ⊥) → result.equal ≡ false }
{
    owned::memory::own_compare(
        bytes,
        keys,
        order,
        words,
        other_bytes,
        other_keys,
        other_order,
        other_words,
    )
}
