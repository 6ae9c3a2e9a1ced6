// Page ids, base pages and byte addresses, and what a page id stands for.
// vm2: page_ids.rs, and `DecodedPage` of heap.rs. Its constants are the six numbers of a `Layout` here.
#![tactic(auto)]

ghost use Rattle.std.specs.Prelude.{◌≡◌};
ghost use Rattle.page_ids.specs.Arithmetic.{page_outcome, base_outcome, code_page, first_base, sum, difference};
ghost use Rattle.page_ids.specs.Decode.{bad_layout, page_of, kind_number, group_number, is_fixed, decoding_outcome, by_remainder, decoded, decoding};

use outcome::Refusal;

#[derive(Clone, Copy, Debug, PartialEq, Eq)]
pub struct PageId(pub u32);

#[derive(Clone, Copy, Debug, PartialEq, Eq)]
pub struct BasePage(pub u32);

#[derive(Clone, Copy, Debug, PartialEq, Eq)]
pub struct Address(pub u32);

// 01's layout, in its order.
#[derive(Clone, Copy, Debug, PartialEq, Eq)]
pub struct Layout {
    pub static_memory: PageId,
    pub calldata: PageId,
    pub bootloader_heap: PageId,
    pub bootloader_aux: PageId,
    pub base: BasePage,
    pub stride: u32,
}

#[derive(Clone, Copy, Debug, PartialEq, Eq)]
pub enum DynamicPageKind {
    Code,
    Heap,
    Aux,
}

// A dynamic page is of a kind and a group.
#[derive(Clone, Copy, Debug, PartialEq, Eq)]
pub enum DecodedPage {
    Static,
    BootloaderCalldata,
    BootloaderHeap,
    BootloaderAuxHeap,
    Dynamic(DynamicPageKind, u32),
}

// The rule of refusal 1.
pub fn bad_layout(layout: Layout) -> bool
    ensures { result ≡ bad_layout layout }
{
    let a = layout.static_memory.0;
    let b = layout.calldata.0;
    let c = layout.bootloader_heap.0;
    let d = layout.bootloader_aux.0;
    a == b || a == c || a == d || b == c || b == d || c == d || layout.stride < 4
}

// The page that a remainder means, in its group.
fn by_remainder(remainder: u32, group: u32) -> Option<DecodedPage>
    ensures { page_of result ≡ by_remainder remainder group }
{
    match remainder {
        0 => Some(DecodedPage::Dynamic(DynamicPageKind::Code, group)),
        2 => Some(DecodedPage::Dynamic(DynamicPageKind::Heap, group)),
        3 => Some(DecodedPage::Dynamic(DynamicPageKind::Aux, group)),
        _ => None,
    }
}

// The number of a page's kind, 7 where it is undecodable: what the C interface tells of a page.
// Stays: a number for a kind: the C interface.
pub fn kind_number(page: Option<DecodedPage>) -> u32
    ensures { result ≡ kind_number (page_of page) }
{
    match page {
        Some(DecodedPage::Dynamic(DynamicPageKind::Code, _)) => 0,
        Some(DecodedPage::Dynamic(DynamicPageKind::Heap, _)) => 1,
        Some(DecodedPage::Dynamic(DynamicPageKind::Aux, _)) => 2,
        Some(DecodedPage::Static) => 3,
        Some(DecodedPage::BootloaderCalldata) => 4,
        Some(DecodedPage::BootloaderHeap) => 5,
        Some(DecodedPage::BootloaderAuxHeap) => 6,
        None => 7,
    }
}

// The group of a page, 0 where it has none.
// Stays: 0 for no group: the C interface.
pub fn group_number(page: Option<DecodedPage>) -> u32
    ensures { result ≡ group_number (page_of page) }
{
    match page {
        Some(DecodedPage::Dynamic(_, group)) => group,
        _ => 0,
    }
}

// vm2: `is_always_allocated`.
pub fn is_fixed(page: Option<DecodedPage>) -> bool
    ensures { result ≡ is_fixed (page_of page) }
{
    match page {
        Some(decoded) => !matches!(decoded, DecodedPage::Dynamic(_, _)),
        None => false,
    }
}

// What a page id stands for. A layout that opened a memory has been tested; of any other only the stride 0 is excluded here.
pub fn decode_page(layout: Layout, page: PageId) -> Option<DecodedPage>
    ensures { page_of result ≡ decoded layout page.0 }
{
    let raw = page.0;
    let static_memory = layout.static_memory.0;
    let calldata = layout.calldata.0;
    let bootloader_heap = layout.bootloader_heap.0;
    let bootloader_aux = layout.bootloader_aux.0;
    let base = layout.base.0;
    let stride = layout.stride;
    if raw == static_memory {
        return Some(DecodedPage::Static);
    }
    if raw == calldata {
        return Some(DecodedPage::BootloaderCalldata);
    }
    if raw == bootloader_heap {
        return Some(DecodedPage::BootloaderHeap);
    }
    if raw == bootloader_aux {
        return Some(DecodedPage::BootloaderAuxHeap);
    }
    if raw < base {
        return None;
    }
    if stride == 0 {
        return None;
    }
    let rel = raw - base;
    by_remainder(rel % stride, rel / stride)
}

// The same for a layout that may be bad: refusal 1.
pub fn decode(layout: Layout, page: PageId) -> Result<Option<DecodedPage>, Refusal>
    ensures { decoding_outcome result ≡ decoding layout page.0 }
{
    if bad_layout(layout) {
        return Err(Refusal::Layout);
    }
    Ok(decode_page(layout, page))
}

// The page `offset` past a base, or 4 where that leaves 32 bits.
// Stays: a function of its own beside `next_page_group`. A sum that both share would be matched in each again, to make a page of the one and a base of the other.
fn page_from_base(base: u32, offset: u32) -> Result<PageId, Refusal>
    ensures { page_outcome result ≡ sum base offset }
{
    match base.checked_add(offset) {
        Some(page) => Ok(PageId(page)),
        None => Err(Refusal::Undecodable),
    }
}

pub fn heap_page_from_base(base: BasePage) -> Result<PageId, Refusal>
    ensures { page_outcome result ≡ sum base.0 2 }
{
    page_from_base(base.0, 2)
}

pub fn aux_heap_page_from_base(base: BasePage) -> Result<PageId, Refusal>
    ensures { page_outcome result ≡ sum base.0 3 }
{
    page_from_base(base.0, 3)
}

pub fn code_page_from_base(base: BasePage) -> PageId
    ensures { result.0 ≡ code_page base.0 }
{
    PageId(base.0)
}

pub fn base_page_from_heap(heap: PageId) -> Result<BasePage, Refusal>
    ensures { base_outcome result ≡ difference heap.0 2 }
{
    match heap.0.checked_sub(2) {
        Some(base) => Ok(BasePage(base)),
        None => Err(Refusal::Undecodable),
    }
}

pub fn first_dynamic_base_page(layout: Layout) -> BasePage
    ensures { result.0 ≡ first_base layout }
{
    BasePage(layout.base.0)
}

// The next far call's base page.
pub fn next_page_group(page: BasePage, stride: u32) -> Result<BasePage, Refusal>
    ensures { base_outcome result ≡ sum page.0 stride }
{
    match page.0.checked_add(stride) {
        Some(next) => Ok(BasePage(next)),
        None => Err(Refusal::Undecodable),
    }
}
