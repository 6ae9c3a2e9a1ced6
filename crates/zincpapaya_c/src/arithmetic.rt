// Page ids, fat pointers and gas: calls that are lent no memory.
ghost use Rattle.outcome.specs.Outcome.{done, mapped};
ghost use Rattle.word.specs.Value.{value, limbs_value};
ghost use Rattle.page_ids.specs.Arithmetic.{sum, difference};
ghost use Rattle.page_ids.specs.Decode.{decoding, layout_from};
ghost use Rattle.fat_pointer.specs.Pointer.{pointer_of, pointer_word};
ghost use Rattle.state.specs.Access.{used, frame_grown};
ghost use Rattle.state.specs.Quote.{quoted};
ghost use Rattle.frames.specs.Frames.{area_of, frame_from};
ghost use Rattle.abi.specs.Interface.{Gives};
ghost use Rattle.abi.specs.Numbers.{one, as_they_are, pointer_at, pointer_from, page_numbers, gas_numbers, end_numbers, Grows};

#[unsafe(no_mangle)]
pub extern "C" fn zp_decode(
    static_memory: u32,
    calldata_page: u32,
    bootloader_heap: u32,
    bootloader_aux: u32,
    base: u32,
    stride: u32,
    page: u32,
    out: &mut [u64],
) -> u32
    ensures { Gives 2 (mapped page_numbers (decoding (layout_from static_memory calldata_page bootloader_heap bootloader_aux base stride) page)) as_they_are result out.old out.new }
{
    zincpapaya::arithmetic::zp_decode(
        static_memory,
        calldata_page,
        bootloader_heap,
        bootloader_aux,
        base,
        stride,
        page,
        out,
    )
}

#[unsafe(no_mangle)]
pub extern "C" fn zp_heap_page_from_base(base: u32, out: &mut [u64]) -> u32
    ensures { Gives 1 (sum base 2) one result out.old out.new }
{
    zincpapaya::arithmetic::zp_heap_page_from_base(base, out)
}

#[unsafe(no_mangle)]
pub extern "C" fn zp_aux_heap_page_from_base(base: u32, out: &mut [u64]) -> u32
    ensures { Gives 1 (sum base 3) one result out.old out.new }
{
    zincpapaya::arithmetic::zp_aux_heap_page_from_base(base, out)
}

#[unsafe(no_mangle)]
pub extern "C" fn zp_code_page_from_base(base: u32, out: &mut [u64]) -> u32
    ensures { Gives 1 (done base) one result out.old out.new }
{
    zincpapaya::arithmetic::zp_code_page_from_base(base, out)
}

#[unsafe(no_mangle)]
pub extern "C" fn zp_base_page_from_heap(heap: u32, out: &mut [u64]) -> u32
    ensures { Gives 1 (difference heap 2) one result out.old out.new }
{
    zincpapaya::arithmetic::zp_base_page_from_heap(heap, out)
}

#[unsafe(no_mangle)]
pub extern "C" fn zp_next_page_group(base: u32, stride: u32, out: &mut [u64]) -> u32
    ensures { Gives 1 (sum base stride) one result out.old out.new }
{
    zincpapaya::arithmetic::zp_next_page_group(base, stride, out)
}

#[unsafe(no_mangle)]
pub extern "C" fn zp_fat_pointer_from_u256(
    limb0: u64,
    limb1: u64,
    limb2: u64,
    limb3: u64,
    out: &mut [u64],
) -> u32
    ensures { Gives 4 (done (pointer_of (limbs_value limb0 limb1 limb2 limb3))) pointer_at result out.old out.new }
{
    zincpapaya::arithmetic::zp_fat_pointer_from_u256(limb0, limb1, limb2, limb3, out)
}

#[unsafe(no_mangle)]
pub extern "C" fn zp_fat_pointer_into_u256(
    offset: u32,
    page: u32,
    start: u32,
    length: u32,
    out: &mut [u64],
) -> u32
    ensures { Gives 4 (done (pointer_word (pointer_from offset page start length))) value result out.old out.new }
{
    zincpapaya::arithmetic::zp_fat_pointer_into_u256(offset, page, start, length, out)
}

#[unsafe(no_mangle)]
pub extern "C" fn zp_use_gas(gas: u32, amount: u32, out: &mut [u64]) -> u32
    ensures { Gives 2 (done (gas_numbers (used gas amount))) as_they_are result out.old out.new }
{
    zincpapaya::arithmetic::zp_use_gas(gas, amount, out)
}

#[unsafe(no_mangle)]
pub extern "C" fn zp_grow_heap(frame: &mut [u32], aux: bool, new_bound: u32, out: &mut [u64]) -> u32
    ensures { Grows frame.old out.old (frame_grown (frame_from frame.old) (area_of aux) new_bound) result frame.new out.new }
{
    zincpapaya::arithmetic::zp_grow_heap(frame, aux, new_bound, out)
}

#[unsafe(no_mangle)]
pub extern "C" fn zp_quote(list: &[u32], gas: u32, bound: u32, out: &mut [u64]) -> u32
    ensures { Gives 3 (mapped end_numbers (quoted list.now gas bound)) as_they_are result out.old out.new }
{
    zincpapaya::arithmetic::zp_quote(list, gas, bound, out)
}
