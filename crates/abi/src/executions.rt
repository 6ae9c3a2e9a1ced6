// The lengths that an instruction requires, its hook, and what it returned as a status and a frame.
ghost use Rattle.std.specs.Prelude.{◌≡◌, length};
ghost use Rattle.execution.specs.Executions as executions;
ghost use Rattle.abi.specs.Executing.{hook_from, fit, ReportsExecuted, stop_value, read_value};

use crate::status::{PANICKED, STOPPED};
use execution::{ExecutionStatus, Hook};
use outcome::Numbered;
use page_ids::Address;
use write_back::{Executed, PointerExecuted};

// ---- arguments

// Whether a frame has six numbers, and a second slice, registers or an output, has the given number of them.
pub fn lengths_fit(frame: &[u32], others: &[u64], numbers: usize) -> bool
    ensures { result ≡ fit frame.now others.now numbers }
{
    frame.len() == frames::FRAME_LENGTH && others.len() == numbers
}

pub fn hook_of(on: bool, address: u32) -> Hook
    ensures { executions.hook_of result ≡ hook_from on address }
{
    let address = Address(address);
    Hook {
        on: on,
        address: address,
    }
}

// ---- answers

// Returns the status of what an instruction returned. Its frame is written except after a refusal.
pub fn report<N: Numbered>(run: Executed<N>, frame: &mut [u32]) -> u32
    requires { length frame.old ≡ 6 }
    ensures { ReportsExecuted N.number run frame.old result frame.new }
{
    let status = match run.status {
        ExecutionStatus::Refused(refusal) => return refusal.number(),
        ExecutionStatus::Running => 0,
        ExecutionStatus::Panicked => PANICKED,
        ExecutionStatus::SuspendedOnHook(_) => STOPPED,
    };
    frames::put_frame(frame, run.frame);
    status
}

// The same of a store: where the hook stops it, `out` gets the hook's value.
pub fn report_stop<N: Numbered>(run: Executed<N>, frame: &mut [u32], out: &mut [u64]) -> u32
    requires { (length frame.old ≡ 6) × (length out.old ≡ 1) }
    ensures { ReportsExecuted N.number run frame.old result frame.new × (out.new ≡ stop_value run.status out.old) }
{
    if let ExecutionStatus::SuspendedOnHook(value) = run.status {
        out[0] = frames::wide(value);
    }
    report(run, frame)
}

// The same of a pointer load: where it is carried out, `out` gets how many bytes of the pointer's range lead the word.
pub fn report_read<N: Numbered>(run: PointerExecuted<N>, frame: &mut [u32], out: &mut [u64]) -> u32
    requires { (length frame.old ≡ 6) × (length out.old ≡ 1) }
    ensures { ReportsExecuted N.number run.executed frame.old result frame.new × (out.new ≡ read_value run.executed.status run.bytes_read out.old) }
{
    if let ExecutionStatus::Running = run.executed.status {
        out[0] = frames::wide(run.bytes_read);
    }
    report(run.executed, frame)
}
