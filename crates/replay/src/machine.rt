// What calls are put to: two memories, the registers that are kept from line to line, and the layout of the latest opening.
use crate::call::{Call, MemoryCall, Which};
use crate::fields::Unreadable;
use crate::memory::Memory;
use crate::numbers::Numbers;
use crate::{arithmetic, kept, on_memory};
use page_ids::{BasePage, Layout, PageId};
use registers::LENGTH;

#[derive(Drop)]
pub struct Machine {
    first: Memory,
    second: Memory,
    registers: [u64; LENGTH],
    layout: Layout,
}

impl Machine {
    // Before any call. All is zeros.
    pub fn new() -> Self {
        Machine {
            first: Memory::new(),
            second: Memory::new(),
            registers: [0; LENGTH],
            layout: Layout {
                static_memory: PageId(0),
                calldata: PageId(0),
                bootloader_heap: PageId(0),
                bootloader_aux: PageId(0),
                base: BasePage(0),
                stride: 0,
            },
        }
    }

    // The answer to a call. Some cannot be put to the library.
    pub fn answer(&mut self, call: Call) -> Result<Numbers, Unreadable> {
        match call {
            Call::Decode(page) => Ok(arithmetic::decode(self.layout, page)),
            Call::PageArithmetic(function, id) => {
                Ok(arithmetic::page_id(function, id, self.layout.stride))
            }
            Call::Pointer(word) => Ok(arithmetic::pointer(word)),
            Call::PointerWord(pointer) => Ok(arithmetic::pointer_word(pointer)),
            Call::UseGas(gas, amount) => Ok(arithmetic::use_gas(gas, amount)),
            Call::Grow(frame, area, bound) => Ok(arithmetic::grow(frame, area, bound)),
            Call::SetRegister(n, word, tagged) => kept::set(&mut self.registers, n, word, tagged),
            Call::Compare(left, right) => {
                Ok(Numbers::answer(self.memory(left).is_equal(self.memory(right))))
            }
            Call::OnMemory(which, call) => {
                if let MemoryCall::Open(layout, _) = call {
                    self.layout = layout;
                }
                match which {
                    Which::First => on_memory::answer(&mut self.first, &mut self.registers, call),
                    Which::Second => on_memory::answer(&mut self.second, &mut self.registers, call),
                }
            }
        }
    }

    fn memory(&self, which: Which) -> &Memory {
        match which {
            Which::First => &self.first,
            Which::Second => &self.second,
        }
    }
}
