// What an instruction returns, and the results of its step written to the registers: dst0 first, and then dst1.
// vm2: the last lines of the handlers in heap_access.rs, and `full_boilerplate` of common.rs, which clears a dst1 that was not written.
#![tactic(auto)]

ghost use Rattle.std.specs.Prelude.{◌≡◌, true, ◌≤◌, length};
ghost use Rattle.word.specs.Value.{value};
ghost use Rattle.registers.specs.Registers.{registers_from, operand_of, is_register, cleared};
ghost use Rattle.view.specs.Instructions.{InstructionResult, loaded_into, stored_into, panicked_into};
ghost use Rattle.write_back.specs.Runs.{WritesBack};

use execution::{Execution, ExecutionStatus};
use outcome::Refusal;
use registers::{LoadPlaces, Operand, StorePlaces};
use state::Frame;
use word::Word;

// What an instruction returns beside its registers. A refusal returns the frame as it was.
// Stays: no `Result`, for `RunsWith.refusal` promises the frame of a refusal too.
#[derive(Clone, Copy)]
pub struct Executed<N = Refusal> {
    pub status: ExecutionStatus<N>,
    pub frame: Frame,
}

// What a pointer load returns: beside that, how many bytes of the pointer's range lead the word. A panic or a refusal has none.
// Stays: a number beside what was executed, as in `PointerExecution`.
#[derive(Clone, Copy)]
pub struct PointerExecuted<N = Refusal> {
    pub executed: Executed<N>,
    pub bytes_read: u32,
}

pub fn refused<N>(refusal: N, frame: Frame) -> Executed<N>
    ensures { (result.status ≡ ExecutionStatus.Refused refusal) × (result.frame ≡ frame) }
{
    Executed {
        status: ExecutionStatus::Refused(refusal),
        frame: frame,
    }
}

pub fn pointer_refused<N>(refusal: N, frame: Frame) -> PointerExecuted<N>
    ensures { (result.executed.status ≡ ExecutionStatus.Refused refusal) × ((result.executed.frame ≡ frame) × (result.bytes_read ≡ 0)) }
{
    PointerExecuted {
        executed: refused(refusal, frame),
        bytes_read: 0,
    }
}

// Zeroes a register and clears its flag.
fn set_zero(registers: &mut [u64], n: u32)
    requires { (length registers.old ≡ 65) × (n ≤ 15) }
    ensures { registers_from registers.new ≡ cleared n (registers_from registers.old) }
{
    registers::set(registers, n, execution::no_word(), false);
}

// A load that was carried out writes the word to dst0, and then dst1: the operand plus 32 where it increments, else 0.
pub fn write_load(registers: &mut [u64], places: LoadPlaces, word: Word, next: Operand)
    requires { (length registers.old ≡ 65) × ((is_register places.dst0 ≡ true) × (is_register places.dst1 ≡ true)) }
    ensures { (x : InstructionResult) → x.word ≡ value word.limbs → x.operand ≡ operand_of next → registers_from registers.new ≡ (loaded_into (registers_from registers.old) places x).registers }
{
    let first = registers::number(places.dst0);
    let second = registers::number(places.dst1);
    registers::set(registers, first, word, false);
    if places.increment {
        registers::set(registers, second, next.word, next.tagged);
    } else {
        set_zero(registers, second);
    }
}

// A store that was carried out writes the operand plus 32 to dst0 where it increments, and clears dst1.
pub fn write_store(registers: &mut [u64], places: StorePlaces, next: Operand)
    requires { (length registers.old ≡ 65) × ((is_register places.dst0 ≡ true) × (is_register places.dst1 ≡ true)) }
    ensures { (x : InstructionResult) → x.operand ≡ operand_of next → registers_from registers.new ≡ (stored_into (registers_from registers.old) places x).registers }
{
    let written = registers::number(places.dst0);
    let cleared = registers::number(places.dst1);
    if places.increment {
        registers::set(registers, written, next.word, next.tagged);
    }
    set_zero(registers, cleared);
}

// Writes back what a load's step returned. A refusal writes nothing, and a panic clears dst1.
pub fn loaded(registers: &mut [u64], places: LoadPlaces, run: Execution) -> Executed
    requires { (length registers.old ≡ 65) × ((is_register places.dst0 ≡ true) × (is_register places.dst1 ≡ true)) }
    ensures { WritesBack (panicked_into (registers_from registers.old) places.dst1) (loaded_into (registers_from registers.old) places) run registers.old result registers.new }
{
    match run.status {
        ExecutionStatus::Running | ExecutionStatus::SuspendedOnHook(_) => {
            write_load(registers, places, run.word, run.operand);
        }
        ExecutionStatus::Panicked => set_zero(registers, registers::number(places.dst1)),
        ExecutionStatus::Refused(_) => {}
    }
    Executed {
        status: run.status,
        frame: run.frame,
    }
}

// Stays: a function of its own beside `loaded`, as `write_store` is beside `write_load`. `Call.Load` and `Call.Store` (view/specs) have places of two types,
// so one function of both would be over a trait with a member and a law for each line below.
// Writes back what a store's step returned.
pub fn stored(registers: &mut [u64], places: StorePlaces, run: Execution) -> Executed
    requires { (length registers.old ≡ 65) × ((is_register places.dst0 ≡ true) × (is_register places.dst1 ≡ true)) }
    ensures { WritesBack (panicked_into (registers_from registers.old) places.dst1) (stored_into (registers_from registers.old) places) run registers.old result registers.new }
{
    match run.status {
        ExecutionStatus::Running | ExecutionStatus::SuspendedOnHook(_) => {
            write_store(registers, places, run.operand);
        }
        ExecutionStatus::Panicked => set_zero(registers, registers::number(places.dst1)),
        ExecutionStatus::Refused(_) => {}
    }
    Executed {
        status: run.status,
        frame: run.frame,
    }
}
