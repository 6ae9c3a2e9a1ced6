// The calls that take no memory: page ids, fat pointers, gas.
use crate::call::PageFunction;
use crate::numbers::Numbers;
use fat_pointer::FatPointer;
use page_ids::{BasePage, Layout, PageId};
use state::{Area, Frame};
use word::Word;

pub fn decode(layout: Layout, page: PageId) -> Numbers {
    let decoded = page_ids::decode(layout, page);
    Numbers::answer(decoded.map(|page| (page_ids::kind_number(page), page_ids::group_number(page))))
}

pub fn page_id(function: PageFunction, id: u32, stride: u32) -> Numbers {
    let base = BasePage(id);
    match function {
        PageFunction::HeapPageFromBase => Numbers::answer(page_ids::heap_page_from_base(base)),
        PageFunction::AuxHeapPageFromBase => {
            Numbers::answer(page_ids::aux_heap_page_from_base(base))
        }
        PageFunction::CodePageFromBase => Numbers::from(page_ids::code_page_from_base(base)),
        PageFunction::BasePageFromHeap => {
            Numbers::answer(page_ids::base_page_from_heap(PageId(id)))
        }
        PageFunction::NextPageGroup => Numbers::answer(page_ids::next_page_group(base, stride)),
    }
}

pub fn pointer(word: Word) -> Numbers {
    let p = fat_pointer::from_u256(word);
    Numbers::new(&[
        0,
        u64::from(p.offset),
        u64::from(p.memory_page.0),
        u64::from(p.start),
        u64::from(p.length),
    ])
}

pub fn pointer_word(pointer: FatPointer) -> Numbers {
    Numbers::from(fat_pointer::into_u256(pointer))
}

pub fn use_gas(gas: u32, amount: u32) -> Numbers {
    let gas = state::use_gas(gas, amount);
    Numbers::from((gas.left, u32::from(gas.paid)))
}

// Pays for a bound, by the library's `grow_heap` on a frame that it is lent.
pub fn grow(frame: Frame, area: Area, bound: u32) -> Numbers {
    let step = state::grow_frame(frame, area, bound);
    Numbers::new(&[
        0,
        u64::from(step.paid),
        u64::from(step.frame.gas),
        u64::from(step.frame.heap_bound),
        u64::from(step.frame.aux_bound),
    ])
}
