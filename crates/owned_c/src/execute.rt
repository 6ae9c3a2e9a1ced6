// The five instructions. Frames are given as numbers: a struct that was just made would be copied by wider loads than its stores were, and the processor would wait for them.
ghost use Rattle.registers.specs.Registers.{registers_from, load_places_from, store_places_from};
ghost use Rattle.store.specs.Mem.{mem};
ghost use Rattle.formed.specs.WellFormed.{WellFormed};
ghost use Rattle.view.specs.Calls.{Call};
ghost use Rattle.write_back.specs.Runs.{Runs, PointerRuns};
ghost use Rattle.frames.specs.Frames.{area_of};
ghost use Rattle.abi.specs.Executing.{hook_from};
ghost use Rattle.owned.specs.Answers.{frame_of, executed_of, pointer_executed_of};

use owned::ran::{PointerRan, Ran};

#[unsafe(no_mangle)]
pub extern "C" fn own_load(
    bytes: &[u8],
    keys: &[u64],
    order: &[u32],
    words: &[u64],
    registers: &mut [u64; registers::LENGTH],
    gas: u32,
    heap: u32,
    aux: u32,
    heap_bound: u32,
    aux_bound: u32,
    panicked: bool,
    in_aux: bool,
    source: u32,
    dst0: u32,
    dst1: u32,
    increment: bool,
) -> Ran
    requires { WellFormed (mem bytes.now keys.now order.now words.now) }
    ensures { Runs (mem bytes.now keys.now order.now words.now) (Call.Load (area_of in_aux) (frame_of gas heap aux heap_bound aux_bound panicked) (registers_from registers.old) (load_places_from source dst0 dst1 increment)) (frame_of gas heap aux heap_bound aux_bound panicked) registers.old (executed_of result) (mem bytes.now keys.now order.now words.now) registers.new }
{
    owned::execute::own_load(
        bytes, keys, order, words, registers, gas, heap, aux, heap_bound, aux_bound, panicked,
        in_aux, source, dst0, dst1, increment,
    )
}

#[unsafe(no_mangle)]
pub extern "C" fn own_store(
    bytes: &mut [u8],
    keys: &mut [u64],
    order: &mut [u32],
    words: &mut [u64],
    registers: &mut [u64; registers::LENGTH],
    gas: u32,
    heap: u32,
    aux: u32,
    heap_bound: u32,
    aux_bound: u32,
    panicked: bool,
    in_aux: bool,
    source: u32,
    value: u32,
    dst0: u32,
    dst1: u32,
    increment: bool,
    kernel: bool,
    hook: bool,
    hook_address: u32,
) -> Ran
    requires { WellFormed (mem bytes.old keys.old order.old words.old) }
    ensures { Runs (mem bytes.old keys.old order.old words.old) (Call.Store (area_of in_aux) (frame_of gas heap aux heap_bound aux_bound panicked) (registers_from registers.old) (store_places_from source value dst0 dst1 increment) kernel (hook_from hook hook_address)) (frame_of gas heap aux heap_bound aux_bound panicked) registers.old (executed_of result) (mem bytes.new keys.new order.new words.new) registers.new }
{
    owned::execute::own_store(
        bytes,
        keys,
        order,
        words,
        registers,
        gas,
        heap,
        aux,
        heap_bound,
        aux_bound,
        panicked,
        in_aux,
        source,
        value,
        dst0,
        dst1,
        increment,
        kernel,
        hook,
        hook_address,
    )
}

#[unsafe(no_mangle)]
pub extern "C" fn own_load_pointer(
    bytes: &[u8],
    keys: &[u64],
    order: &[u32],
    words: &[u64],
    registers: &mut [u64; registers::LENGTH],
    gas: u32,
    heap: u32,
    aux: u32,
    heap_bound: u32,
    aux_bound: u32,
    panicked: bool,
    source: u32,
    dst0: u32,
    dst1: u32,
    increment: bool,
) -> PointerRan
    requires { WellFormed (mem bytes.now keys.now order.now words.now) }
    ensures { PointerRuns (mem bytes.now keys.now order.now words.now) (Call.LoadPointer (frame_of gas heap aux heap_bound aux_bound panicked) (registers_from registers.old) (load_places_from source dst0 dst1 increment)) (frame_of gas heap aux heap_bound aux_bound panicked) registers.old (pointer_executed_of result) (mem bytes.now keys.now order.now words.now) registers.new }
{
    owned::execute::own_load_pointer(
        bytes, keys, order, words, registers, gas, heap, aux, heap_bound, aux_bound, panicked,
        source, dst0, dst1, increment,
    )
}

#[unsafe(no_mangle)]
pub extern "C" fn own_load_static(
    bytes: &[u8],
    keys: &[u64],
    order: &[u32],
    words: &[u64],
    registers: &mut [u64; registers::LENGTH],
    gas: u32,
    heap: u32,
    aux: u32,
    heap_bound: u32,
    aux_bound: u32,
    panicked: bool,
    source: u32,
    dst0: u32,
    dst1: u32,
    increment: bool,
) -> Ran
    requires { WellFormed (mem bytes.now keys.now order.now words.now) }
    ensures { Runs (mem bytes.now keys.now order.now words.now) (Call.LoadStatic (frame_of gas heap aux heap_bound aux_bound panicked) (registers_from registers.old) (load_places_from source dst0 dst1 increment)) (frame_of gas heap aux heap_bound aux_bound panicked) registers.old (executed_of result) (mem bytes.now keys.now order.now words.now) registers.new }
{
    owned::execute::own_load_static(
        bytes, keys, order, words, registers, gas, heap, aux, heap_bound, aux_bound, panicked,
        source, dst0, dst1, increment,
    )
}

#[unsafe(no_mangle)]
pub extern "C" fn own_store_static(
    bytes: &mut [u8],
    keys: &mut [u64],
    order: &mut [u32],
    words: &mut [u64],
    registers: &mut [u64; registers::LENGTH],
    gas: u32,
    heap: u32,
    aux: u32,
    heap_bound: u32,
    aux_bound: u32,
    panicked: bool,
    source: u32,
    value: u32,
    dst0: u32,
    dst1: u32,
    increment: bool,
    kernel: bool,
) -> Ran
    requires { WellFormed (mem bytes.old keys.old order.old words.old) }
    ensures { Runs (mem bytes.old keys.old order.old words.old) (Call.StoreStatic (frame_of gas heap aux heap_bound aux_bound panicked) (registers_from registers.old) (store_places_from source value dst0 dst1 increment) kernel) (frame_of gas heap aux heap_bound aux_bound panicked) registers.old (executed_of result) (mem bytes.new keys.new order.new words.new) registers.new }
{
    owned::execute::own_store_static(
        bytes, keys, order, words, registers, gas, heap, aux, heap_bound, aux_bound, panicked,
        source, value, dst0, dst1, increment, kernel,
    )
}
