// The five heap instructions. Each takes its operands from the registers and writes its results there, as its places say.
// It tests first that the memory is well formed (refusal 3); `on_formed` has what is left of it. vm2: heap_access.rs.
// Stays: the lent buffers are parameters side by side. As one struct of four `&`, tried, a sequential load of an owned memory takes 1.12 times as long, which misses its bar.
// Stays: each instruction makes the test of the memory itself. A function that makes it and calls a closure is no plainer: it would be handed the buffers, some as `&` and some as `&mut`.
#![tactic(auto)]

ghost use Rattle.registers.specs.Registers.{registers_from};
ghost use Rattle.store.specs.Mem.{mem};
ghost use Rattle.view.specs.Calls.{Call};
ghost use Rattle.execution.specs.Executions.{hook_of};
ghost use Rattle.write_back.specs.Runs.{Runs, PointerRuns};

use execution::Hook;
use outcome::Refusal;
use registers::{LoadPlaces, StorePlaces};
use state::{Area, Frame};
use write_back::{Executed, PointerExecuted};

pub mod on_formed;

// Reads the word at the operand, in the page of an area, and pays for the area's growth.
pub fn load(
    bytes: &[u8],
    keys: &[u64],
    order: &[u32],
    words: &[u64],
    registers: &mut [u64; registers::LENGTH],
    frame: Frame,
    area: Area,
    places: LoadPlaces,
) -> Executed
    ensures { Runs (mem bytes.now keys.now order.now words.now) (Call.Load area frame (registers_from registers.old) places) frame registers.old result (mem bytes.now keys.now order.now words.now) registers.new }
{
    if !formed::well_formed(bytes, keys, order, words) {
        return write_back::refused(Refusal::NotFormed, frame);
    }
    on_formed::load(bytes, keys, order, words, registers, frame, area, places)
}

// Writes the word of a register at the operand, in the page of an area, and pays for the area's growth; stops on the hook.
pub fn store(
    bytes: &mut [u8],
    keys: &mut [u64],
    order: &mut [u32],
    words: &mut [u64],
    registers: &mut [u64; registers::LENGTH],
    frame: Frame,
    area: Area,
    places: StorePlaces,
    kernel: bool,
    hook: Hook,
) -> Executed
    ensures { Runs (mem bytes.old keys.old order.old words.old) (Call.Store area frame (registers_from registers.old) places kernel (hook_of hook)) frame registers.old result (mem bytes.new keys.new order.new words.new) registers.new }
{
    if !formed::well_formed(bytes, keys, order, words) {
        return write_back::refused(Refusal::NotFormed, frame);
    }
    on_formed::store(
        bytes, keys, order, words, registers, frame, area, places, kernel, hook,
    )
}

// Reads the bytes that a pointer shows from its offset on, at most 32; they lead the word, and zeros follow.
pub fn load_pointer(
    bytes: &[u8],
    keys: &[u64],
    order: &[u32],
    words: &[u64],
    registers: &mut [u64; registers::LENGTH],
    frame: Frame,
    places: LoadPlaces,
) -> PointerExecuted
    ensures { PointerRuns (mem bytes.now keys.now order.now words.now) (Call.LoadPointer frame (registers_from registers.old) places) frame registers.old result (mem bytes.now keys.now order.now words.now) registers.new }
{
    if !formed::well_formed(bytes, keys, order, words) {
        return write_back::pointer_refused(Refusal::NotFormed, frame);
    }
    on_formed::load_pointer(bytes, keys, order, words, registers, frame, places)
}

// Reads the word at the operand in the static page.
pub fn load_static(
    bytes: &[u8],
    keys: &[u64],
    order: &[u32],
    words: &[u64],
    registers: &mut [u64; registers::LENGTH],
    frame: Frame,
    places: LoadPlaces,
) -> Executed
    ensures { Runs (mem bytes.now keys.now order.now words.now) (Call.LoadStatic frame (registers_from registers.old) places) frame registers.old result (mem bytes.now keys.now order.now words.now) registers.new }
{
    if !formed::well_formed(bytes, keys, order, words) {
        return write_back::refused(Refusal::NotFormed, frame);
    }
    on_formed::load_static(bytes, keys, order, words, registers, frame, places)
}

// Writes the word of a register at the operand in the static page.
pub fn store_static(
    bytes: &mut [u8],
    keys: &mut [u64],
    order: &mut [u32],
    words: &mut [u64],
    registers: &mut [u64; registers::LENGTH],
    frame: Frame,
    places: StorePlaces,
    kernel: bool,
) -> Executed
    ensures { Runs (mem bytes.old keys.old order.old words.old) (Call.StoreStatic frame (registers_from registers.old) places kernel) frame registers.old result (mem bytes.new keys.new order.new words.new) registers.new }
{
    if !formed::well_formed(bytes, keys, order, words) {
        return write_back::refused(Refusal::NotFormed, frame);
    }
    on_formed::store_static(bytes, keys, order, words, registers, frame, places, kernel)
}
