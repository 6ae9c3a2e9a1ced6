// Page ids, fat pointers and gas: calls that are lent no memory.
ghost use Rattle.outcome.specs.Outcome.{done, mapped};
ghost use Rattle.word.specs.Value.{value, limbs_value};
ghost use Rattle.page_ids.specs.Arithmetic.{sum, difference};
ghost use Rattle.page_ids.specs.Decode.{decoding, layout_from};
ghost use Rattle.fat_pointer.specs.Pointer.{pointer_of, pointer_word};
ghost use Rattle.state.specs.Access.{used, frame_grown};
ghost use Rattle.state.specs.Quote.{quoted};
ghost use Rattle.frames.specs.Frames.{area_of, frame_from};
ghost use Rattle.abi.specs.Interface.{Gives};
ghost use Rattle.abi.specs.Numbers.{one, as_they_are, pointer_at, pointer_from, page_numbers, gas_numbers, end_numbers, Grows};

use abi::status::UNFIT;
use abi::{answers, executions};
use fat_pointer::FatPointer;
use outcome::Refusal;
use page_ids::{BasePage, PageId};

// ---- page ids

// The kind's number and the group of a page id.
pub fn zp_decode(
    static_memory: u32,
    calldata_page: u32,
    bootloader_heap: u32,
    bootloader_aux: u32,
    base: u32,
    stride: u32,
    page: u32,
    out: &mut [u64],
) -> u32
    ensures { Gives 2 (mapped page_numbers (decoding (layout_from static_memory calldata_page bootloader_heap bootloader_aux base stride) page)) as_they_are result out.old out.new }
{
    let layout = frames::layout_of(
        static_memory,
        calldata_page,
        bootloader_heap,
        bootloader_aux,
        base,
        stride,
    );
    answers::give_decoding(out, page_ids::decode(layout, PageId(page)))
}

// The pages of a base page and back; 4 where a number leaves 32 bits. A code page has the base page's own number, and is never refused.
pub fn zp_heap_page_from_base(base: u32, out: &mut [u64]) -> u32
    ensures { Gives 1 (sum base 2) one result out.old out.new }
{
    answers::give_page(out, page_ids::heap_page_from_base(BasePage(base)))
}

pub fn zp_aux_heap_page_from_base(base: u32, out: &mut [u64]) -> u32
    ensures { Gives 1 (sum base 3) one result out.old out.new }
{
    answers::give_page(out, page_ids::aux_heap_page_from_base(BasePage(base)))
}

pub fn zp_code_page_from_base(base: u32, out: &mut [u64]) -> u32
    ensures { Gives 1 (done base) one result out.old out.new }
{
    let page = page_ids::code_page_from_base(BasePage(base));
    answers::give_page::<Refusal>(out, Ok(page))
}

pub fn zp_base_page_from_heap(heap: u32, out: &mut [u64]) -> u32
    ensures { Gives 1 (difference heap 2) one result out.old out.new }
{
    answers::give_base(out, page_ids::base_page_from_heap(PageId(heap)))
}

// The next far call's base page.
pub fn zp_next_page_group(base: u32, stride: u32, out: &mut [u64]) -> u32
    ensures { Gives 1 (sum base stride) one result out.old out.new }
{
    answers::give_base(out, page_ids::next_page_group(BasePage(base), stride))
}

// ---- fat pointers

// Offset, page, start and length of a word.
pub fn zp_fat_pointer_from_u256(
    limb0: u64,
    limb1: u64,
    limb2: u64,
    limb3: u64,
    out: &mut [u64],
) -> u32
    ensures { Gives 4 (done (pointer_of (limbs_value limb0 limb1 limb2 limb3))) pointer_at result out.old out.new }
{
    let word = frames::word_of(limb0, limb1, limb2, limb3);
    answers::give_pointer(out, fat_pointer::from_u256(word))
}

// The word of offset, page, start and length.
pub fn zp_fat_pointer_into_u256(
    offset: u32,
    page: u32,
    start: u32,
    length: u32,
    out: &mut [u64],
) -> u32
    ensures { Gives 4 (done (pointer_word (pointer_from offset page start length))) value result out.old out.new }
{
    let memory_page = PageId(page);
    let pointer = FatPointer {
        offset: offset,
        memory_page: memory_page,
        start: start,
        length: length,
    };
    answers::give_word::<Refusal>(out, Ok(fat_pointer::into_u256(pointer)))
}

// ---- gas

// The gas that is left, and whether the amount was paid.
pub fn zp_use_gas(gas: u32, amount: u32, out: &mut [u64]) -> u32
    ensures { Gives 2 (done (gas_numbers (used gas amount))) as_they_are result out.old out.new }
{
    let gas = state::use_gas(gas, amount);
    let left = frames::wide(gas.left);
    let paid = frames::wide(frames::bit(gas.paid));
    answers::give::<2, Refusal>(out, Ok([left, paid]))
}

// The growth of one area is paid from the frame's gas, as instructions do it; `out` is 1 where it was, else 0.
pub fn zp_grow_heap(frame: &mut [u32], aux: bool, new_bound: u32, out: &mut [u64]) -> u32
    ensures { Grows frame.old out.old (frame_grown (frame_from frame.old) (area_of aux) new_bound) result frame.new out.new }
{
    if !executions::lengths_fit(frame, out, 1) {
        return UNFIT;
    }
    let before = frames::frame_of(frame);
    let step = state::grow_frame(before, frames::area_of(aux), new_bound);
    frames::put_growth(frame, step.frame);
    answers::give::<1, Refusal>(out, Ok([frames::wide(frames::bit(step.paid))]))
}

// What loads at these addresses of one area, one after another, spend of the gas, which bound they reach, and where they end.
pub fn zp_quote(list: &[u32], gas: u32, bound: u32, out: &mut [u64]) -> u32
    ensures { Gives 3 (mapped end_numbers (quoted list.now gas bound)) as_they_are result out.old out.new }
{
    answers::give_quote(out, state::quote::quote(list, gas, bound))
}
