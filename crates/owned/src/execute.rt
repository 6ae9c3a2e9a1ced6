// The five instructions. Frames are given as numbers: a struct that was just made would be copied by wider loads than its stores were, and the processor would wait for them.
ghost use Rattle.std.specs.Prelude.{◌≡◌, ◌&&◌, true, leb, length};
ghost use Rattle.word.specs.Value.{value};
ghost use Rattle.registers.specs.Registers.{registers_from, load_places_from, store_places_from};
ghost use Rattle.store.specs.Mem.{mem};
ghost use Rattle.formed.specs.WellFormed.{WellFormed};
ghost use Rattle.view.specs.Calls.{Call};
ghost use Rattle.execution.specs.Executions.{hook_of};
ghost use Rattle.write_back.specs.Runs.{Runs, PointerRuns};
ghost use Rattle.state.specs.Access.{bound_of};
ghost use Rattle.frames.specs.Frames.{area_of};
ghost use Rattle.abi.specs.Executing.{hook_from};
ghost use Rattle.owned.specs.Answers.{frame_of, with_status, status_from, executed_of, pointer_executed_of};
ghost use Rattle.owned.specs.Numbered.{is_numbered};
ghost use Rattle.owned.specs.Known.{paid_below, LoadKnown, WriteKnown, StoreKnown};

use crate::ran::{PointerRan, Ran};
use abi::executions;
use execution::{ExecutionStatus, Hook};
use instructions::on_formed;
use page_ids::{Address, PageId};
use registers::{Operand, Place};
use state::{Area, Frame};
use store::head;
use word::Word;
use write_back::Executed;

// How an instruction ended: the values of `kind`.
// Stays: numbers, and not an enum: the C interface.
pub const RUNNING: u32 = 0;

pub const SUSPENDED: u32 = 1;

pub const PANICKED: u32 = 2;

pub const REFUSED: u32 = 3;

fn frame_of(gas: u32, heap: u32, aux: u32, heap_bound: u32, aux_bound: u32, panicked: bool) -> Frame
    ensures { result ≡ frame_of gas heap aux heap_bound aux_bound panicked }
{
    Frame {
        gas: gas,
        heap: PageId(heap),
        aux: PageId(aux),
        heap_bound: heap_bound,
        aux_bound: aux_bound,
        panicked: panicked,
    }
}

fn ended(kind: u32, number: u32, run: Executed) -> Ran
    requires { is_numbered kind number ≡ true }
    ensures { executed_of result ≡ with_status (status_from kind number) run }
{
    let frame = run.frame;
    Ran {
        kind: kind,
        number: number,
        gas: frame.gas,
        heap: frame.heap.0,
        aux: frame.aux.0,
        heap_bound: frame.heap_bound,
        aux_bound: frame.aux_bound,
        panicked: frame.panicked,
    }
}

fn report(run: Executed) -> Ran
    ensures { executed_of result ≡ run }
{
    let status = run.status;
    match status {
        ExecutionStatus::Running => ended(RUNNING, 0, run),
        ExecutionStatus::SuspendedOnHook(value) => ended(SUSPENDED, value, run),
        ExecutionStatus::Panicked => ended(PANICKED, 0, run),
        ExecutionStatus::Refused(refusal) => ended(REFUSED, u32::from(refusal), run),
    }
}

// An instruction that was carried out and left the frame as it was. It is made of the numbers that were given.
fn running(gas: u32, heap: u32, aux: u32, heap_bound: u32, aux_bound: u32, panicked: bool) -> Ran
    ensures { executed_of result ≡ record { status = ExecutionStatus.Running; frame = frame_of gas heap aux heap_bound aux_bound panicked } }
{
    Ran {
        kind: RUNNING,
        number: 0,
        gas: gas,
        heap: heap,
        aux: aux,
        heap_bound: heap_bound,
        aux_bound: aux_bound,
        panicked: panicked,
    }
}

fn bound_of(frame: Frame, area: Area) -> u32
    ensures { result ≡ bound_of frame area }
{
    match area {
        Area::Heap => frame.heap_bound,
        Area::Aux => frame.aux_bound,
    }
}

// ---- what a hint knows

// Whether a word at an operand lies below a bound: its access pays nothing.
fn is_paid(operand: Word, bound: u32) -> bool
    ensures { result ≡ paid_below (value operand.limbs) bound }
{
    if word::bigger_than_last_address(operand) {
        return false;
    }
    word::low_u32(operand) + 32 <= bound
}

// A load of registers alone, without growth, whose word is in one piece that a hint knows: it is carried out here. Otherwise nothing is written.
fn load_known(
    bytes: &[u8],
    keys: &[u64],
    order: &[u32],
    words: &[u64],
    registers: &mut [u64],
    page: PageId,
    bound: u32,
    source: u32,
    dst0: u32,
    dst1: u32,
    increment: bool,
) -> bool
    requires well_formed { WellFormed (mem bytes.now keys.now order.now words.now) }
    requires registers_len { length registers.old ≡ 65 }
    ensures { LoadKnown (mem bytes.now keys.now order.now words.now) registers.old page.0 bound (load_places_from source dst0 dst1 increment) result registers.new }
{
    let places = registers::load_places(source, dst0, dst1, increment);
    if !are_registers(source, dst0, dst1) {
        return false;
    }
    let operand = registers::source(registers, Place::Register(source));
    if !is_paid(operand.word, bound) {
        return false;
    }
    let address = Address(word::low_u32(operand.word));
    let s = hints::in_one_piece(keys, order, words, page, address);
    if s >= words[head::CHUNKS] as usize {
        return false;
    }
    let at = 256 * s + (address.0 % 256) as usize;
    let word = word::from_big_endian(hints::word_at(bytes, at));
    let next = Operand {
        word: word::plus_32(operand.word),
        tagged: operand.tagged,
    };
    write_back::write_load(registers, places, word, next);
    true
}

// A word in one piece that a hint knows, on a page without a journal: it is written here. Otherwise nothing is.
fn write_known(
    bytes: &mut [u8],
    keys: &[u64],
    order: &[u32],
    words: &[u64],
    page: PageId,
    address: Address,
    word: Word,
) -> bool
    requires { WellFormed (mem bytes.old keys.now order.now words.now) }
    ensures { WriteKnown (mem bytes.old keys.now order.now words.now) page.0 address.0 (value word.limbs) result (mem bytes.new keys.now order.now words.now) }
{
    let s = hints::in_one_piece(keys, order, words, page, address);
    if s >= words[head::CHUNKS] as usize {
        return false;
    }
    if !hints::has_no_journal(words, page) {
        return false;
    }
    let value = word::to_big_endian(word);
    bodies::copy(&value, 0, bytes, 256 * s + (address.0 % 256) as usize, 32);
    true
}

// A store of registers alone, without growth and not at the hook, whose word is in such a piece: it is carried out here. Otherwise nothing is written.
fn store_known(
    bytes: &mut [u8],
    keys: &[u64],
    order: &[u32],
    words: &[u64],
    registers: &mut [u64],
    page: PageId,
    bound: u32,
    source: u32,
    value: u32,
    dst0: u32,
    dst1: u32,
    increment: bool,
    kernel: bool,
    hook: Hook,
) -> bool
    requires well_formed { WellFormed (mem bytes.old keys.now order.now words.now) }
    requires registers_len { length registers.old ≡ 65 }
    ensures { StoreKnown (mem bytes.old keys.now order.now words.now) registers.old page.0 bound (store_places_from source value dst0 dst1 increment) kernel (hook_of hook) result (mem bytes.new keys.now order.now words.now) registers.new }
{
    let places = registers::store_places(source, value, dst0, dst1, increment);
    if !are_registers(source, dst0, dst1) {
        return false;
    }
    if value > registers::LAST_REGISTER {
        return false;
    }
    let operand = registers::source(registers, Place::Register(source));
    if !is_paid(operand.word, bound) {
        return false;
    }
    let address = Address(word::low_u32(operand.word));
    if execution::hits(hook, address) {
        return false;
    }
    let word = registers::value(registers, value, kernel);
    if !write_known(bytes, keys, order, words, page, address, word) {
        return false;
    }
    let next = Operand {
        word: word::plus_32(operand.word),
        tagged: false,
    };
    write_back::write_store(registers, places, next);
    true
}

fn are_registers(source: u32, dst0: u32, dst1: u32) -> bool
    ensures { result ≡ (leb source 15 && (leb dst0 15 && leb dst1 15)) }
{
    if source > registers::LAST_REGISTER {
        return false;
    }
    if dst0 > registers::LAST_REGISTER {
        return false;
    }
    dst1 <= registers::LAST_REGISTER
}

// ---- the instructions

// Reads the word at the operand, in the page of an area, and pays for the area's growth.
pub fn own_load(
    bytes: &[u8],
    keys: &[u64],
    order: &[u32],
    words: &[u64],
    registers: &mut [u64; registers::LENGTH],
    gas: u32,
    heap: u32,
    aux: u32,
    heap_bound: u32,
    aux_bound: u32,
    panicked: bool,
    in_aux: bool,
    source: u32,
    dst0: u32,
    dst1: u32,
    increment: bool,
) -> Ran
    requires { WellFormed (mem bytes.now keys.now order.now words.now) }
    ensures { Runs (mem bytes.now keys.now order.now words.now) (Call.Load (area_of in_aux) (frame_of gas heap aux heap_bound aux_bound panicked) (registers_from registers.old) (load_places_from source dst0 dst1 increment)) (frame_of gas heap aux heap_bound aux_bound panicked) registers.old (executed_of result) (mem bytes.now keys.now order.now words.now) registers.new }
{
    let frame = frame_of(gas, heap, aux, heap_bound, aux_bound, panicked);
    let area = frames::area_of(in_aux);
    let page = execution::page_of(frame, area);
    let bound = bound_of(frame, area);
    if load_known(
        bytes, keys, order, words, registers, page, bound, source, dst0, dst1, increment,
    ) {
        return running(gas, heap, aux, heap_bound, aux_bound, panicked);
    }
    let places = registers::load_places(source, dst0, dst1, increment);
    report(on_formed::load(bytes, keys, order, words, registers, frame, area, places))
}

// Writes the word of a register at the operand, in the page of an area, and pays for the area's growth; stops on the hook.
pub fn own_store(
    bytes: &mut [u8],
    keys: &mut [u64],
    order: &mut [u32],
    words: &mut [u64],
    registers: &mut [u64; registers::LENGTH],
    gas: u32,
    heap: u32,
    aux: u32,
    heap_bound: u32,
    aux_bound: u32,
    panicked: bool,
    in_aux: bool,
    source: u32,
    value: u32,
    dst0: u32,
    dst1: u32,
    increment: bool,
    kernel: bool,
    hook: bool,
    hook_address: u32,
) -> Ran
    requires { WellFormed (mem bytes.old keys.old order.old words.old) }
    ensures { Runs (mem bytes.old keys.old order.old words.old) (Call.Store (area_of in_aux) (frame_of gas heap aux heap_bound aux_bound panicked) (registers_from registers.old) (store_places_from source value dst0 dst1 increment) kernel (hook_from hook hook_address)) (frame_of gas heap aux heap_bound aux_bound panicked) registers.old (executed_of result) (mem bytes.new keys.new order.new words.new) registers.new }
{
    let frame = frame_of(gas, heap, aux, heap_bound, aux_bound, panicked);
    let area = frames::area_of(in_aux);
    let page = execution::page_of(frame, area);
    let bound = bound_of(frame, area);
    let stop = executions::hook_of(hook, hook_address);
    if store_known(
        bytes, keys, order, words, registers, page, bound, source, value, dst0, dst1, increment,
        kernel, stop,
    ) {
        return running(gas, heap, aux, heap_bound, aux_bound, panicked);
    }
    let places = registers::store_places(source, value, dst0, dst1, increment);
    report(on_formed::store(
        bytes, keys, order, words, registers, frame, area, places, kernel, stop,
    ))
}

// Reads the bytes that a pointer shows from its offset on, at most 32.
pub fn own_load_pointer(
    bytes: &[u8],
    keys: &[u64],
    order: &[u32],
    words: &[u64],
    registers: &mut [u64; registers::LENGTH],
    gas: u32,
    heap: u32,
    aux: u32,
    heap_bound: u32,
    aux_bound: u32,
    panicked: bool,
    source: u32,
    dst0: u32,
    dst1: u32,
    increment: bool,
) -> PointerRan
    requires { WellFormed (mem bytes.now keys.now order.now words.now) }
    ensures { PointerRuns (mem bytes.now keys.now order.now words.now) (Call.LoadPointer (frame_of gas heap aux heap_bound aux_bound panicked) (registers_from registers.old) (load_places_from source dst0 dst1 increment)) (frame_of gas heap aux heap_bound aux_bound panicked) registers.old (pointer_executed_of result) (mem bytes.now keys.now order.now words.now) registers.new }
{
    let frame = frame_of(gas, heap, aux, heap_bound, aux_bound, panicked);
    let places = registers::load_places(source, dst0, dst1, increment);
    let run = on_formed::load_pointer(bytes, keys, order, words, registers, frame, places);
    PointerRan {
        ran: report(run.executed),
        bytes_read: run.bytes_read,
    }
}

// Reads the word at the operand in the static page.
pub fn own_load_static(
    bytes: &[u8],
    keys: &[u64],
    order: &[u32],
    words: &[u64],
    registers: &mut [u64; registers::LENGTH],
    gas: u32,
    heap: u32,
    aux: u32,
    heap_bound: u32,
    aux_bound: u32,
    panicked: bool,
    source: u32,
    dst0: u32,
    dst1: u32,
    increment: bool,
) -> Ran
    requires { WellFormed (mem bytes.now keys.now order.now words.now) }
    ensures { Runs (mem bytes.now keys.now order.now words.now) (Call.LoadStatic (frame_of gas heap aux heap_bound aux_bound panicked) (registers_from registers.old) (load_places_from source dst0 dst1 increment)) (frame_of gas heap aux heap_bound aux_bound panicked) registers.old (executed_of result) (mem bytes.now keys.now order.now words.now) registers.new }
{
    let frame = frame_of(gas, heap, aux, heap_bound, aux_bound, panicked);
    let places = registers::load_places(source, dst0, dst1, increment);
    report(on_formed::load_static(bytes, keys, order, words, registers, frame, places))
}

// Writes the word of a register at the operand in the static page.
pub fn own_store_static(
    bytes: &mut [u8],
    keys: &mut [u64],
    order: &mut [u32],
    words: &mut [u64],
    registers: &mut [u64; registers::LENGTH],
    gas: u32,
    heap: u32,
    aux: u32,
    heap_bound: u32,
    aux_bound: u32,
    panicked: bool,
    source: u32,
    value: u32,
    dst0: u32,
    dst1: u32,
    increment: bool,
    kernel: bool,
) -> Ran
    requires { WellFormed (mem bytes.old keys.old order.old words.old) }
    ensures { Runs (mem bytes.old keys.old order.old words.old) (Call.StoreStatic (frame_of gas heap aux heap_bound aux_bound panicked) (registers_from registers.old) (store_places_from source value dst0 dst1 increment) kernel) (frame_of gas heap aux heap_bound aux_bound panicked) registers.old (executed_of result) (mem bytes.new keys.new order.new words.new) registers.new }
{
    let frame = frame_of(gas, heap, aux, heap_bound, aux_bound, panicked);
    let places = registers::store_places(source, value, dst0, dst1, increment);
    report(on_formed::store_static(bytes, keys, order, words, registers, frame, places, kernel))
}
