// What the steps of the instructions are made of: their answers, the pages and the growth, the hook, loads and stores of a well-formed memory.
// Stays: the lent buffers are parameters side by side. As one struct of four `&`, tried, a sequential load of an owned memory takes 1.12 times as long, which misses its bar.
#![tactic(auto)]

ghost use Rattle.std.specs.Prelude.{◌≡◌, true, false, cond, ◌&&◌, [], ◌∷◌, ◌++◌, ◌-◌, ◌%◌, ◌^◌, ◌≤◌, min, ltb, length};
ghost use Rattle.view.specs.Calls.{first_refusal};
ghost use Rattle.outcome.specs.Outcome as outcome;
ghost use Rattle.outcome.specs.Outcome.{number_of};
ghost use Rattle.word.specs.Value.{value, last_address};
ghost use Rattle.registers.specs.Registers.{operand_of};
ghost use Rattle.state.specs.Access.{frame_accessed};
ghost use Rattle.store.specs.Mem.{mem, layout_of, head_length};
ghost use Rattle.formed.specs.Formed.{narrow};
ghost use Rattle.formed.specs.WellFormed.{WellFormed};
ghost use Rattle.view.specs.View.{setting_of, view_of};
ghost use Rattle.view.specs.Checks.{word_write_checks};
ghost use Rattle.view.specs.Instructions.{heap_of, static_of, frame_alone, panic, hooked, incremented};
ghost use Rattle.execution.specs.Executions.{hook_of, result_of, carried, static_step, Loads, Stores};

use outcome::Refusal;
use page_ids::{Address, PageId};
use registers::Operand;
use state::{Area, Frame, FrameStep};
use word::Word;

// Whether hooking is on, and the hook address.
// Stays: `hook_from` in abi's specs tells the address that a caller gives where hooking is off, too, so a promised `Hook` is no `Option<Address>`.
#[derive(Clone, Copy)]
pub struct Hook {
    pub on: bool,
    pub address: Address,
}

// How an instruction ended. The run goes on, or stops on the hook with a value: vm2's `ExecutionStatus`, with the stop reason that a store has.
// `N` is what tells the refusal. It is `Refusal` where no type is written.
#[derive(Clone, Copy)]
pub enum ExecutionStatus<N = Refusal> {
    Running,
    SuspendedOnHook(u32),
    Panicked,
    Refused(N),
}

// What a step returns: the word that it read, the operand plus 32, and the frame. A panic returns the frame alone, and a refusal the frame as it was.
// Stays: no `Result`, for `Ends.refusal` promises the frame of a refusal too (must-fail edit growth_charged_on_a_refused_store).
#[derive(Clone, Copy)]
pub struct Execution<N = Refusal> {
    pub status: ExecutionStatus<N>,
    pub word: Word,
    pub operand: Operand,
    pub frame: Frame,
}

// What the step of a pointer load returns beside it: how many bytes of the pointer's range lead the word. A panic or a refusal has none.
// Stays: a number beside the execution. A panic or a refusal is promised to have 0 (`PointerRuns.none`).
#[derive(Clone, Copy)]
pub struct PointerExecution<N = Refusal> {
    pub execution: Execution<N>,
    pub bytes_read: u32,
}

// ---- pages and growth

pub fn page_of(frame: Frame, area: Area) -> PageId
    ensures { result.0 ≡ heap_of frame area }
{
    match area {
        Area::Heap => frame.heap,
        Area::Aux => frame.aux,
    }
}

pub fn static_page(words: &[u64]) -> PageId
    requires { (head_length ≤ length words.now) × (narrow words.now ≡ true) }
    ensures { result.0 ≡ static_of (layout_of words.now) }
{
    let layout = formed::head::layout_of(words);
    layout.static_memory
}

// Pays for the growth of a load or a store. If it is not paid, the step has the frame of the panic, with `panicked` not yet set.
pub fn reach(frame: Frame, area: Area, operand: Word) -> FrameStep
    ensures { result ≡ frame_accessed frame area (value operand.limbs) }
{
    if word::bigger_than_last_address(operand) {
        let mut after = frame;
        after.gas = 0;
        return FrameStep {
            frame: after,
            paid: false,
        };
    }
    let address = Address(word::low_u32(operand));
    state::growth_step(frame, area, state::new_bound(address))
}

// A static load or store has the same limit, and costs nothing.
pub fn reach_static(frame: Frame, operand: Word) -> FrameStep
    ensures { result ≡ static_step frame (value operand.limbs) }
{
    let far = word::bigger_than_last_address(operand);
    FrameStep {
        frame: frame,
        paid: !far,
    }
}

// ---- the hook

pub fn hits(hook: Hook, address: Address) -> bool
    ensures { result ≡ hooked (hook_of hook) address.0 }
{
    hook.on && address.0 == hook.address.0
}

// 15: the hook is hit by a value of more than 32 bits.
fn stops_wide(hook: Hook, address: Address, word: Word) -> bool
    ensures { result ≡ (hooked (hook_of hook) address.0 && ltb 4294967295 (value word.limbs)) }
{
    hits(hook, address) && !word::fits_u32(word)
}

// Which refusal such a store gets: that of a word write, or else 15.
fn wide_refusal(
    bytes: &[u8],
    keys: &[u64],
    order: &[u32],
    words: &[u64],
    page: PageId,
    address: Address,
) -> Refusal
    requires { WellFormed (mem bytes.now keys.now order.now words.now) }
    ensures { number_of result ≡ first_refusal (word_write_checks (setting_of (mem bytes.now keys.now order.now words.now)) (view_of (mem bytes.now keys.now order.now words.now)) page.0 address.0 ++ ((true, outcome.refused 15) ∷ [])) }
{
    match checks::word_refusal(bytes, keys, order, words, page, address) {
        Err(refusal) => refusal,
        Ok(()) => Refusal::HookValue,
    }
}

fn stop_of(hook: Hook, address: Address, word: Word) -> ExecutionStatus
    ensures { result ≡ cond (hooked (hook_of hook) address.0) (ExecutionStatus.SuspendedOnHook (value word.limbs % 2 ^ 32)) ExecutionStatus.Running }
{
    if hits(hook, address) {
        return ExecutionStatus::SuspendedOnHook(word::low_u32(word));
    }
    ExecutionStatus::Running
}

// ---- the answers

pub fn no_word() -> Word
    ensures { value result.limbs ≡ 0 }
{
    Word { limbs: [0; 4] }
}

// Nothing but a frame.
fn alone(status: ExecutionStatus, frame: Frame) -> Execution
    ensures { (result.status ≡ status) × (result_of result ≡ carried status 0 0 false frame) }
{
    let none = Operand {
        word: no_word(),
        tagged: false,
    };
    Execution {
        status: status,
        word: no_word(),
        operand: none,
        frame: frame,
    }
}

pub fn refused(refusal: Refusal, frame: Frame) -> Execution
    ensures { (result.status ≡ ExecutionStatus.Refused refusal) × (result_of result ≡ frame_alone frame) }
{
    alone(ExecutionStatus::Refused(refusal), frame)
}

// A panic sets the mark.
pub fn panicked(frame: Frame) -> Execution
    ensures { (result.status ≡ ExecutionStatus.Panicked) × (result_of result ≡ panic frame) }
{
    let mut after = frame;
    after.panicked = true;
    alone(ExecutionStatus::Panicked, after)
}

// A pointer load that panicked or was refused.
pub fn unread<N>(execution: Execution<N>) -> PointerExecution<N>
    ensures { (result.execution ≡ execution) × (result.bytes_read ≡ 0) }
{
    PointerExecution {
        execution: execution,
        bytes_read: 0,
    }
}

// The operand is incremented, and gets this tag.
pub fn carried_out(
    status: ExecutionStatus,
    word: Word,
    operand: Operand,
    tagged: bool,
    frame: Frame,
) -> Execution
    ensures { (result.status ≡ status) × (result_of result ≡ carried status (value word.limbs) (incremented (value operand.word.limbs)) tagged frame) }
{
    let next = Operand {
        word: word::plus_32(operand.word),
        tagged: tagged,
    };
    Execution {
        status: status,
        word: word,
        operand: next,
        frame: frame,
    }
}

// ---- load and store

// Panics where the step is not paid, or reads the word at the operand.
pub fn load_at(
    bytes: &[u8],
    keys: &[u64],
    order: &[u32],
    words: &[u64],
    page: PageId,
    operand: Operand,
    step: FrameStep,
) -> Execution
    requires well_formed { WellFormed (mem bytes.now keys.now order.now words.now) }
    requires limbs_bound { step.paid ≡ true → value operand.word.limbs ≤ last_address }
    ensures { Loads (mem bytes.now keys.now order.now words.now) page.0 (operand_of operand) step result }
{
    let after = step.frame;
    if !step.paid {
        return panicked(after);
    }
    let address = Address(word::low_u32(operand.word));
    let word = read_steps::read_word(bytes, keys, order, words, page, address);
    carried_out(
        ExecutionStatus::Running,
        word,
        operand,
        operand.tagged,
        after,
    )
}

// Panics where the step is not paid, or is refused with the frame as it was, or writes the word at the operand and stops on the hook.
pub fn store_at(
    bytes: &mut [u8],
    keys: &mut [u64],
    order: &mut [u32],
    words: &mut [u64],
    page: PageId,
    operand: Operand,
    word: Word,
    hook: Hook,
    before: Frame,
    step: FrameStep,
) -> Execution
    requires well_formed { WellFormed (mem bytes.old keys.old order.old words.old) }
    requires limbs_bound { step.paid ≡ true → value operand.word.limbs ≤ last_address }
    ensures { Stores (mem bytes.old keys.old order.old words.old) page.0 (operand_of operand) (value word.limbs) (hook_of hook) before step result (mem bytes.new keys.new order.new words.new) }
{
    let after = step.frame;
    if !step.paid {
        return panicked(after);
    }
    let address = Address(word::low_u32(operand.word));
    if stops_wide(hook, address, word) {
        return refused(
            wide_refusal(bytes, keys, order, words, page, address),
            before,
        );
    }
    if let Err(refusal) = write_steps::write_word(bytes, keys, order, words, page, address, word) {
        return refused(refusal, before);
    }
    let status = stop_of(hook, address, word);
    carried_out(status, no_word(), operand, false, after)
}

// ---- the bytes of a pointer

// How many bytes are read from `first` on: at most 32, and none past `end`.
pub fn count(first: u32, end: u32) -> u32
    requires { first ≤ end }
    ensures { result ≡ min 32 (end - first) }
{
    (end - first).min(32)
}
