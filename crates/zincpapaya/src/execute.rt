// The five instructions. `frame` has six numbers and `registers` 65; a refused instruction leaves both as they were.
// A place is a number: that of a register, or 65,536 plus an immediate; from 131,072 on it is another form. `out` of a store has one number, the hook's value.
ghost use Rattle.std.specs.Prelude.{◌≡◌, ◌&&◌, eqb, length, get_or};
ghost use Rattle.registers.specs.Registers.{registers_from, load_places_from, store_places_from};
ghost use Rattle.store.specs.Mem.{mem};
ghost use Rattle.view.specs.Calls.{Call};
ghost use Rattle.frames.specs.Frames.{frame_from, area_of};
ghost use Rattle.abi.specs.Executing.{hook_from, fit, Executes, PointerExecutes};

use abi::executions;
use abi::status::UNFIT;
use instructions::on_formed;
use outcome::Refusal;

// Reads the word at the operand, in the page of an area, and pays for the area's growth.
pub fn zp_load(
    bytes: &[u8],
    keys: &[u64],
    order: &[u32],
    words: &[u64],
    frame: &mut [u32],
    registers: &mut [u64],
    aux: bool,
    source: u32,
    dst0: u32,
    dst1: u32,
    increment: bool,
) -> u32
    ensures { Executes (mem bytes.now keys.now order.now words.now) (Call.Load (area_of aux) (frame_from frame.old) (registers_from registers.old) (load_places_from source dst0 dst1 increment)) frame.old registers.old (fit frame.old registers.old 65) result 0 (mem bytes.now keys.now order.now words.now) frame.new registers.new }
{
    if !executions::lengths_fit(frame, registers, registers::LENGTH) {
        return UNFIT;
    }
    if !formed::well_formed(bytes, keys, order, words) {
        return u32::from(Refusal::NotFormed);
    }
    let before = frames::frame_of(frame);
    let area = frames::area_of(aux);
    let places = registers::load_places(source, dst0, dst1, increment);
    let run = on_formed::load(bytes, keys, order, words, registers, before, area, places);
    executions::report(run, frame)
}

// Writes the word of a register at the operand, in the page of an area, and pays for the area's growth; stops on the hook.
pub fn zp_store(
    bytes: &mut [u8],
    keys: &mut [u64],
    order: &mut [u32],
    words: &mut [u64],
    frame: &mut [u32],
    registers: &mut [u64],
    aux: bool,
    source: u32,
    value: u32,
    dst0: u32,
    dst1: u32,
    increment: bool,
    kernel: bool,
    hook: bool,
    hook_address: u32,
    out: &mut [u64],
) -> u32
    ensures executes { Executes (mem bytes.old keys.old order.old words.old) (Call.Store (area_of aux) (frame_from frame.old) (registers_from registers.old) (store_places_from source value dst0 dst1 increment) kernel (hook_from hook hook_address)) frame.old registers.old (fit frame.old registers.old 65 && eqb (length out.old) 1) result (get_or out.new 0 0) (mem bytes.new keys.new order.new words.new) frame.new registers.new }
    ensures out_unchanged { (result ≡ 101 → ⊥) → out.new ≡ out.old }
{
    if !executions::lengths_fit(frame, registers, registers::LENGTH) {
        return UNFIT;
    }
    if out.len() != 1 {
        return UNFIT;
    }
    if !formed::well_formed(bytes, keys, order, words) {
        return u32::from(Refusal::NotFormed);
    }
    let before = frames::frame_of(frame);
    let area = frames::area_of(aux);
    let places = registers::store_places(source, value, dst0, dst1, increment);
    let stop = executions::hook_of(hook, hook_address);
    let run = on_formed::store(
        bytes, keys, order, words, registers, before, area, places, kernel, stop,
    );
    executions::report_stop(run, frame, out)
}

// Reads the bytes that a pointer shows from its offset on, at most 32. `out` has one number: how many bytes of the pointer's range lead the word.
pub fn zp_load_pointer(
    bytes: &[u8],
    keys: &[u64],
    order: &[u32],
    words: &[u64],
    frame: &mut [u32],
    registers: &mut [u64],
    source: u32,
    dst0: u32,
    dst1: u32,
    increment: bool,
    out: &mut [u64],
) -> u32
    ensures pointer_executes { PointerExecutes (mem bytes.now keys.now order.now words.now) (Call.LoadPointer (frame_from frame.old) (registers_from registers.old) (load_places_from source dst0 dst1 increment)) frame.old registers.old (fit frame.old registers.old 65 && eqb (length out.old) 1) result out.new (mem bytes.now keys.now order.now words.now) frame.new registers.new }
    ensures out_unchanged { (result ≡ 0 → ⊥) → out.new ≡ out.old }
{
    if !executions::lengths_fit(frame, registers, registers::LENGTH) {
        return UNFIT;
    }
    if out.len() != 1 {
        return UNFIT;
    }
    if !formed::well_formed(bytes, keys, order, words) {
        return u32::from(Refusal::NotFormed);
    }
    let before = frames::frame_of(frame);
    let places = registers::load_places(source, dst0, dst1, increment);
    let run = on_formed::load_pointer(bytes, keys, order, words, registers, before, places);
    executions::report_read(run, frame, out)
}

// Reads the word at the operand in the static page.
pub fn zp_load_static(
    bytes: &[u8],
    keys: &[u64],
    order: &[u32],
    words: &[u64],
    frame: &mut [u32],
    registers: &mut [u64],
    source: u32,
    dst0: u32,
    dst1: u32,
    increment: bool,
) -> u32
    ensures { Executes (mem bytes.now keys.now order.now words.now) (Call.LoadStatic (frame_from frame.old) (registers_from registers.old) (load_places_from source dst0 dst1 increment)) frame.old registers.old (fit frame.old registers.old 65) result 0 (mem bytes.now keys.now order.now words.now) frame.new registers.new }
{
    if !executions::lengths_fit(frame, registers, registers::LENGTH) {
        return UNFIT;
    }
    if !formed::well_formed(bytes, keys, order, words) {
        return u32::from(Refusal::NotFormed);
    }
    let before = frames::frame_of(frame);
    let places = registers::load_places(source, dst0, dst1, increment);
    let run = on_formed::load_static(bytes, keys, order, words, registers, before, places);
    executions::report(run, frame)
}

// Writes the word of a register at the operand in the static page.
pub fn zp_store_static(
    bytes: &mut [u8],
    keys: &mut [u64],
    order: &mut [u32],
    words: &mut [u64],
    frame: &mut [u32],
    registers: &mut [u64],
    source: u32,
    value: u32,
    dst0: u32,
    dst1: u32,
    increment: bool,
    kernel: bool,
) -> u32
    ensures { Executes (mem bytes.old keys.old order.old words.old) (Call.StoreStatic (frame_from frame.old) (registers_from registers.old) (store_places_from source value dst0 dst1 increment) kernel) frame.old registers.old (fit frame.old registers.old 65) result 0 (mem bytes.new keys.new order.new words.new) frame.new registers.new }
{
    if !executions::lengths_fit(frame, registers, registers::LENGTH) {
        return UNFIT;
    }
    if !formed::well_formed(bytes, keys, order, words) {
        return u32::from(Refusal::NotFormed);
    }
    let before = frames::frame_of(frame);
    let places = registers::store_places(source, value, dst0, dst1, increment);
    let run = on_formed::store_static(bytes, keys, order, words, registers, before, places, kernel);
    executions::report(run, frame)
}
