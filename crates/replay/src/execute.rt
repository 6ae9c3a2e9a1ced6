// Runs instructions, and tells what they left.
use crate::instruction::{Given, Instruction, OPERAND, STORED};
use crate::kept;
use crate::memory::Memory;
use crate::numbers::Numbers;
use execution::ExecutionStatus;
use registers::LENGTH;
use state::Frame;

// ---- how an instruction ended

const RUNNING: u64 = 0;

const PANICKED: u64 = 100;

const SUSPENDED: u64 = 101;

fn status_number(status: ExecutionStatus) -> u64 {
    match status {
        ExecutionStatus::Running => RUNNING,
        ExecutionStatus::SuspendedOnHook(_) => SUSPENDED,
        ExecutionStatus::Panicked => PANICKED,
        ExecutionStatus::Refused(refusal) => u64::from(u32::from(refusal)),
    }
}

// The hook's value, or 0.
fn stop_of(status: ExecutionStatus) -> u64 {
    match status {
        ExecutionStatus::SuspendedOnHook(value) => u64::from(value),
        _ => 0,
    }
}

// ---- X

pub fn with_kept_registers(
    memory: &mut Memory,
    registers: &mut [u64; LENGTH],
    step: &Instruction,
) -> Numbers {
    let executed = memory.execute(registers, step);
    let status = executed.status;
    let frame = executed.frame;
    Numbers::new(&[
        status_number(status),
        u64::from(frame.gas),
        u64::from(frame.heap_bound),
        u64::from(frame.aux_bound),
        stop_of(status),
        kept::flags(registers),
        kept::digest(registers),
    ])
}

// ---- x

pub fn with_own_registers(memory: &mut Memory, given: &Given) -> Numbers {
    let mut registers = [0; LENGTH];
    let operand = given.operand;
    registers::set(&mut registers, OPERAND, operand.word, operand.tagged);
    registers::set(&mut registers, STORED, given.value, false);
    let executed = memory.execute(&mut registers, &given.instruction());
    let status = executed.status;
    let frame = executed.frame;
    match status {
        ExecutionStatus::Running | ExecutionStatus::SuspendedOnHook(_) => {
            with_results(status, frame, given, &registers)
        }
        ExecutionStatus::Panicked => Numbers::new(&[
            PANICKED,
            u64::from(frame.gas),
            u64::from(frame.heap_bound),
            u64::from(frame.aux_bound),
        ]),
        ExecutionStatus::Refused(refusal) => Numbers::from(refusal),
    }
}

// The frame, and then what was left in the registers and the hook's value.
fn with_results(
    status: ExecutionStatus,
    frame: Frame,
    given: &Given,
    registers: &[u64; LENGTH],
) -> Numbers {
    let next = given.op.next_register();
    let [a, b, c, d] = registers::value(registers, given.op.word_register(), true).limbs;
    let [e, f, g, h] = registers::value(registers, next, true).limbs;
    let tagged = registers::flag(kept::flags(registers), next);
    Numbers::new(&[
        status_number(status),
        u64::from(frame.gas),
        u64::from(frame.heap_bound),
        u64::from(frame.aux_bound),
        a,
        b,
        c,
        d,
        e,
        f,
        g,
        h,
        u64::from(tagged),
        stop_of(status),
    ])
}
