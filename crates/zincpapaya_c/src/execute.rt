// The five instructions. `frame` has six numbers and `registers` 65; a refused instruction leaves both as they were.
ghost use Rattle.std.specs.Prelude.{◌≡◌, ◌&&◌, eqb, length, get_or};
ghost use Rattle.registers.specs.Registers.{registers_from, load_places_from, store_places_from};
ghost use Rattle.store.specs.Mem.{mem};
ghost use Rattle.view.specs.Calls.{Call};
ghost use Rattle.frames.specs.Frames.{frame_from, area_of};
ghost use Rattle.abi.specs.Executing.{hook_from, fit, Executes, PointerExecutes};

#[unsafe(no_mangle)]
pub extern "C" fn zp_load(
    bytes: &[u8],
    keys: &[u64],
    order: &[u32],
    words: &[u64],
    frame: &mut [u32],
    registers: &mut [u64],
    aux: bool,
    source: u32,
    dst0: u32,
    dst1: u32,
    increment: bool,
) -> u32
    ensures { Executes (mem bytes.now keys.now order.now words.now) (Call.Load (area_of aux) (frame_from frame.old) (registers_from registers.old) (load_places_from source dst0 dst1 increment)) frame.old registers.old (fit frame.old registers.old 65) result 0 (mem bytes.now keys.now order.now words.now) frame.new registers.new }
{
    zincpapaya::execute::zp_load(
        bytes, keys, order, words, frame, registers, aux, source, dst0, dst1, increment,
    )
}

#[unsafe(no_mangle)]
pub extern "C" fn zp_store(
    bytes: &mut [u8],
    keys: &mut [u64],
    order: &mut [u32],
    words: &mut [u64],
    frame: &mut [u32],
    registers: &mut [u64],
    aux: bool,
    source: u32,
    value: u32,
    dst0: u32,
    dst1: u32,
    increment: bool,
    kernel: bool,
    hook: bool,
    hook_address: u32,
    out: &mut [u64],
) -> u32
    ensures executes { Executes (mem bytes.old keys.old order.old words.old) (Call.Store (area_of aux) (frame_from frame.old) (registers_from registers.old) (store_places_from source value dst0 dst1 increment) kernel (hook_from hook hook_address)) frame.old registers.old (fit frame.old registers.old 65 && eqb (length out.old) 1) result (get_or out.new 0 0) (mem bytes.new keys.new order.new words.new) frame.new registers.new }
    ensures out_unchanged { (result ≡ 101 → ⊥) → out.new ≡ out.old }
{
    zincpapaya::execute::zp_store(
        bytes,
        keys,
        order,
        words,
        frame,
        registers,
        aux,
        source,
        value,
        dst0,
        dst1,
        increment,
        kernel,
        hook,
        hook_address,
        out,
    )
}

#[unsafe(no_mangle)]
pub extern "C" fn zp_load_pointer(
    bytes: &[u8],
    keys: &[u64],
    order: &[u32],
    words: &[u64],
    frame: &mut [u32],
    registers: &mut [u64],
    source: u32,
    dst0: u32,
    dst1: u32,
    increment: bool,
    out: &mut [u64],
) -> u32
    ensures pointer_executes { PointerExecutes (mem bytes.now keys.now order.now words.now) (Call.LoadPointer (frame_from frame.old) (registers_from registers.old) (load_places_from source dst0 dst1 increment)) frame.old registers.old (fit frame.old registers.old 65 && eqb (length out.old) 1) result out.new (mem bytes.now keys.now order.now words.now) frame.new registers.new }
    ensures out_unchanged { (result ≡ 0 → ⊥) → out.new ≡ out.old }
{
    zincpapaya::execute::zp_load_pointer(
        bytes, keys, order, words, frame, registers, source, dst0, dst1, increment, out,
    )
}

#[unsafe(no_mangle)]
pub extern "C" fn zp_load_static(
    bytes: &[u8],
    keys: &[u64],
    order: &[u32],
    words: &[u64],
    frame: &mut [u32],
    registers: &mut [u64],
    source: u32,
    dst0: u32,
    dst1: u32,
    increment: bool,
) -> u32
    ensures { Executes (mem bytes.now keys.now order.now words.now) (Call.LoadStatic (frame_from frame.old) (registers_from registers.old) (load_places_from source dst0 dst1 increment)) frame.old registers.old (fit frame.old registers.old 65) result 0 (mem bytes.now keys.now order.now words.now) frame.new registers.new }
{
    zincpapaya::execute::zp_load_static(
        bytes, keys, order, words, frame, registers, source, dst0, dst1, increment,
    )
}

#[unsafe(no_mangle)]
pub extern "C" fn zp_store_static(
    bytes: &mut [u8],
    keys: &mut [u64],
    order: &mut [u32],
    words: &mut [u64],
    frame: &mut [u32],
    registers: &mut [u64],
    source: u32,
    value: u32,
    dst0: u32,
    dst1: u32,
    increment: bool,
    kernel: bool,
) -> u32
    ensures { Executes (mem bytes.old keys.old order.old words.old) (Call.StoreStatic (frame_from frame.old) (registers_from registers.old) (store_places_from source value dst0 dst1 increment) kernel) frame.old registers.old (fit frame.old registers.old 65) result 0 (mem bytes.new keys.new order.new words.new) frame.new registers.new }
{
    zincpapaya::execute::zp_store_static(
        bytes, keys, order, words, frame, registers, source, value, dst0, dst1, increment, kernel,
    )
}
