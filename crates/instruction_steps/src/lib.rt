// The step of each instruction on an operand, on a memory that is known to be well formed: it panics or is refused, or does its work.
// It reads and writes no register. vm2: heap_access.rs.
// Stays: the lent buffers are parameters side by side. As one struct of four `&`, tried, a sequential load of an owned memory takes 1.12 times as long, which misses its bar.
#![tactic(auto)]

ghost use Rattle.word.specs.Value.{value};
ghost use Rattle.store.specs.Mem.{mem};
ghost use Rattle.formed.specs.WellFormed.{WellFormed};
ghost use Rattle.registers.specs.Registers.{operand_of};
ghost use Rattle.execution.specs.Executions.{hook_of, LoadStep, StoreStep, PointerStep, StaticLoadStep, StaticStoreStep};

use execution::{Execution, ExecutionStatus, Hook, PointerExecution};
use outcome::Refusal;
use page_ids::Address;
use registers::Operand;
use state::{Area, Frame};
use word::Word;

pub fn load(
    bytes: &[u8],
    keys: &[u64],
    order: &[u32],
    words: &[u64],
    frame: Frame,
    area: Area,
    operand: Operand,
) -> Execution
    requires { WellFormed (mem bytes.now keys.now order.now words.now) }
    ensures { LoadStep (mem bytes.now keys.now order.now words.now) area frame (operand_of operand) result }
{
    let page = execution::page_of(frame, area);
    let step = execution::reach(frame, area, operand.word);
    execution::load_at(bytes, keys, order, words, page, operand, step)
}

pub fn store(
    bytes: &mut [u8],
    keys: &mut [u64],
    order: &mut [u32],
    words: &mut [u64],
    frame: Frame,
    area: Area,
    operand: Operand,
    word: Word,
    hook: Hook,
) -> Execution
    requires { WellFormed (mem bytes.old keys.old order.old words.old) }
    ensures { StoreStep (mem bytes.old keys.old order.old words.old) area frame (operand_of operand) (value word.limbs) (hook_of hook) result (mem bytes.new keys.new order.new words.new) }
{
    let page = execution::page_of(frame, area);
    let step = execution::reach(frame, area, operand.word);
    execution::store_at(
        bytes, keys, order, words, page, operand, word, hook, frame, step,
    )
}

pub fn load_pointer(
    bytes: &[u8],
    keys: &[u64],
    order: &[u32],
    words: &[u64],
    frame: Frame,
    operand: Operand,
) -> PointerExecution
    requires { WellFormed (mem bytes.now keys.now order.now words.now) }
    ensures { PointerStep (mem bytes.now keys.now order.now words.now) frame (operand_of operand) result }
{
    if !operand.tagged {
        return execution::unread(execution::panicked(frame));
    }
    let pointer = fat_pointer::from_u256(operand.word);
    if pointer.offset > word::LAST_ADDRESS {
        return execution::unread(execution::panicked(frame));
    }
    let Some(end) = pointer.start.checked_add(pointer.length) else {
        return execution::unread(execution::refused(Refusal::Pointer, frame));
    };
    let first = pointer.start + pointer.offset.min(pointer.length);
    let n = execution::count(first, end);
    let page = pointer.memory_page;
    let start = Address(first);
    let read = read_steps::read_padded(bytes, keys, order, words, page, start, n as usize);
    let word = word::from_big_endian(read);
    PointerExecution {
        execution: execution::carried_out(ExecutionStatus::Running, word, operand, true, frame),
        bytes_read: n,
    }
}

// Stays: a function of its own beside `load`. They differ in the page and in what is paid, which is all that they say.
pub fn load_static(
    bytes: &[u8],
    keys: &[u64],
    order: &[u32],
    words: &[u64],
    frame: Frame,
    operand: Operand,
) -> Execution
    requires { WellFormed (mem bytes.now keys.now order.now words.now) }
    ensures { StaticLoadStep (mem bytes.now keys.now order.now words.now) frame (operand_of operand) result }
{
    let page = execution::static_page(words);
    let step = execution::reach_static(frame, operand.word);
    execution::load_at(bytes, keys, order, words, page, operand, step)
}

// Stays: a function of its own beside `store`, for the same reason.
pub fn store_static(
    bytes: &mut [u8],
    keys: &mut [u64],
    order: &mut [u32],
    words: &mut [u64],
    frame: Frame,
    operand: Operand,
    word: Word,
) -> Execution
    requires { WellFormed (mem bytes.old keys.old order.old words.old) }
    ensures { StaticStoreStep (mem bytes.old keys.old order.old words.old) frame (operand_of operand) (value word.limbs) result (mem bytes.new keys.new order.new words.new) }
{
    let page = execution::static_page(words);
    let step = execution::reach_static(frame, operand.word);
    let off = Hook {
        on: false,
        address: Address(0),
    };
    execution::store_at(
        bytes, keys, order, words, page, operand, word, off, frame, step,
    )
}
