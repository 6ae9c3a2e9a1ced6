// The calls on a memory.
use crate::call::MemoryCall;
use crate::fields::Unreadable;
use crate::memory::Memory;
use crate::numbers::Numbers;
use crate::{content, execute};
use reads::Marks;
use registers::LENGTH;

// The answer to a call on a memory. It may have too many bytes.
pub fn answer(
    memory: &mut Memory,
    registers: &mut [u64; LENGTH],
    call: MemoryCall,
) -> Result<Numbers, Unreadable> {
    let mut buffer = [0; content::MOST];
    Ok(match call {
        MemoryCall::Open(layout, content) => {
            Numbers::answer(memory.open(layout, content.bytes(&mut buffer)?))
        }
        MemoryCall::Allocate(page) => Numbers::answer(memory.allocate(page)),
        MemoryCall::AllocateWithContent(page, content) => {
            Numbers::answer(memory.allocate_with_content(page, content.bytes(&mut buffer)?))
        }
        MemoryCall::Deallocate(page) => Numbers::answer(memory.deallocate(page)),
        MemoryCall::ReadWord(at) => Numbers::answer(memory.read_word(at)),
        MemoryCall::ReadWordPartially(start, end) => {
            Numbers::answer(memory.read_word_partially(start, end))
        }
        MemoryCall::ReadRange(start, end) => {
            let count = end.0.saturating_sub(start.address.0) as usize;
            let out = buffer.get_mut(..count).ok_or(Unreadable)?;
            let read = memory.read_range(start, end, out);
            Numbers::answer(read.map(|()| content::digest(out)))
        }
        MemoryCall::ReadChunk(page, number) => Numbers::answer(memory.read_chunk(page, number)),
        MemoryCall::ReadByte(at) => Numbers::answer(memory.read_byte(at)),
        MemoryCall::WriteWord(at, word) => Numbers::answer(memory.write_word(at, word)),
        MemoryCall::WriteBytes(start, content) => {
            Numbers::answer(memory.write_bytes(start, content.bytes(&mut buffer)?))
        }
        MemoryCall::CompactToWindow(start, length) => {
            Numbers::answer(memory.compact_to_window(start, length))
        }
        MemoryCall::Truncate(length) => Numbers::answer(memory.truncate(length)),
        MemoryCall::DynamicLength => Numbers::answer(memory.dynamic_length()),
        MemoryCall::Snapshot => Numbers::answer(memory.snapshot()),
        MemoryCall::RollBack(heap, aux) => Numbers::answer(memory.roll_back(heap, aux)),
        MemoryCall::DeleteHistory => Numbers::answer(memory.delete_history()),
        MemoryCall::Counts => counts(memory),
        MemoryCall::Execute(given) => execute::with_own_registers(memory, &given),
        MemoryCall::ExecuteKept(step) => execute::with_kept_registers(memory, registers, &step),
    })
}

// Held chunks, dynamic length, and the lengths of the journals; no status. A refusal counts as zeros.
fn counts(memory: &Memory) -> Numbers {
    let length = memory.dynamic_length().unwrap_or(0);
    let Marks { heap, aux } = memory.snapshot().unwrap_or(Marks { heap: 0, aux: 0 });
    Numbers::new(&[
        memory.held(),
        u64::from(length),
        u64::from(heap),
        u64::from(aux),
    ])
}
