// Each instruction on a memory that is known to be well formed: what is left of it after the test.
// It is refused where a place is not one that it takes (16). Otherwise it reads its operands, makes its step, and writes the results back.
// Stays: the lent buffers are parameters side by side, for the reason that lib.rt has.
ghost use Rattle.std.specs.Prelude.{◌≡◌, length};
ghost use Rattle.registers.specs.Registers.{registers_from};
ghost use Rattle.store.specs.Mem.{mem};
ghost use Rattle.formed.specs.WellFormed.{WellFormed};
ghost use Rattle.view.specs.Calls.{Call};
ghost use Rattle.execution.specs.Executions.{hook_of};
ghost use Rattle.write_back.specs.Runs.{Runs, PointerRuns};

use execution::Hook;
use outcome::Refusal;
use registers::{LoadPlaces, StorePlaces};
use state::{Area, Frame};
use write_back::{Executed, PointerExecuted};

pub fn load(
    bytes: &[u8],
    keys: &[u64],
    order: &[u32],
    words: &[u64],
    registers: &mut [u64],
    frame: Frame,
    area: Area,
    places: LoadPlaces,
) -> Executed
    requires well_formed { WellFormed (mem bytes.now keys.now order.now words.now) }
    requires registers_len { length registers.old ≡ 65 }
    ensures { Runs (mem bytes.now keys.now order.now words.now) (Call.Load area frame (registers_from registers.old) places) frame registers.old result (mem bytes.now keys.now order.now words.now) registers.new }
{
    if !registers::takes_load(places) {
        return write_back::refused(Refusal::Operand, frame);
    }
    let operand = registers::source(registers, places.source);
    let run = instruction_steps::load(bytes, keys, order, words, frame, area, operand);
    write_back::loaded(registers, places, run)
}

pub fn store(
    bytes: &mut [u8],
    keys: &mut [u64],
    order: &mut [u32],
    words: &mut [u64],
    registers: &mut [u64],
    frame: Frame,
    area: Area,
    places: StorePlaces,
    kernel: bool,
    hook: Hook,
) -> Executed
    requires well_formed { WellFormed (mem bytes.old keys.old order.old words.old) }
    requires registers_len { length registers.old ≡ 65 }
    ensures { Runs (mem bytes.old keys.old order.old words.old) (Call.Store area frame (registers_from registers.old) places kernel (hook_of hook)) frame registers.old result (mem bytes.new keys.new order.new words.new) registers.new }
{
    if !registers::takes_store(places) {
        return write_back::refused(Refusal::Operand, frame);
    }
    let operand = registers::source(registers, places.source);
    let stored = registers::number(places.value);
    let word = registers::value(registers, stored, kernel);
    let run = instruction_steps::store(bytes, keys, order, words, frame, area, operand, word, hook);
    write_back::stored(registers, places, run)
}

pub fn load_pointer(
    bytes: &[u8],
    keys: &[u64],
    order: &[u32],
    words: &[u64],
    registers: &mut [u64],
    frame: Frame,
    places: LoadPlaces,
) -> PointerExecuted
    requires well_formed { WellFormed (mem bytes.now keys.now order.now words.now) }
    requires registers_len { length registers.old ≡ 65 }
    ensures { PointerRuns (mem bytes.now keys.now order.now words.now) (Call.LoadPointer frame (registers_from registers.old) places) frame registers.old result (mem bytes.now keys.now order.now words.now) registers.new }
{
    if !registers::takes_pointer(places) {
        return write_back::pointer_refused(Refusal::Operand, frame);
    }
    let operand = registers::source(registers, places.source);
    let run = instruction_steps::load_pointer(bytes, keys, order, words, frame, operand);
    PointerExecuted {
        executed: write_back::loaded(registers, places, run.execution),
        bytes_read: run.bytes_read,
    }
}

pub fn load_static(
    bytes: &[u8],
    keys: &[u64],
    order: &[u32],
    words: &[u64],
    registers: &mut [u64],
    frame: Frame,
    places: LoadPlaces,
) -> Executed
    requires well_formed { WellFormed (mem bytes.now keys.now order.now words.now) }
    requires registers_len { length registers.old ≡ 65 }
    ensures { Runs (mem bytes.now keys.now order.now words.now) (Call.LoadStatic frame (registers_from registers.old) places) frame registers.old result (mem bytes.now keys.now order.now words.now) registers.new }
{
    if !registers::takes_load(places) {
        return write_back::refused(Refusal::Operand, frame);
    }
    let operand = registers::source(registers, places.source);
    let run = instruction_steps::load_static(bytes, keys, order, words, frame, operand);
    write_back::loaded(registers, places, run)
}

pub fn store_static(
    bytes: &mut [u8],
    keys: &mut [u64],
    order: &mut [u32],
    words: &mut [u64],
    registers: &mut [u64],
    frame: Frame,
    places: StorePlaces,
    kernel: bool,
) -> Executed
    requires well_formed { WellFormed (mem bytes.old keys.old order.old words.old) }
    requires registers_len { length registers.old ≡ 65 }
    ensures { Runs (mem bytes.old keys.old order.old words.old) (Call.StoreStatic frame (registers_from registers.old) places kernel) frame registers.old result (mem bytes.new keys.new order.new words.new) registers.new }
{
    if !registers::takes_store(places) {
        return write_back::refused(Refusal::Operand, frame);
    }
    let operand = registers::source(registers, places.source);
    let stored = registers::number(places.value);
    let word = registers::value(registers, stored, kernel);
    let run = instruction_steps::store_static(bytes, keys, order, words, frame, operand, word);
    write_back::stored(registers, places, run)
}
