// A call: a letter and its numbers. rust/README.md describes the line of each.
use crate::content::Content;
use crate::fields::{Fields, Unreadable};
use crate::instruction::{Given, Instruction};
use fat_pointer::FatPointer;
use page_ids::{Address, Layout, PageId};
use state::{Area, Frame};
use std::str::FromStr;
use word::Word;

// ---- calls

#[derive(Clone, Copy)]
pub enum Call {
    Decode(PageId),
    PageArithmetic(PageFunction, u32),
    Pointer(Word),
    PointerWord(FatPointer),
    UseGas(u32, u32),
    Grow(Frame, Area, u32),
    SetRegister(u32, Word, bool),
    Compare(Which, Which),
    OnMemory(Which, MemoryCall),
}

// The functions that make a page of a base page, and so on, in the order of their numbers.
#[derive(Clone, Copy)]
pub enum PageFunction {
    HeapPageFromBase,
    AuxHeapPageFromBase,
    CodePageFromBase,
    BasePageFromHeap,
    NextPageGroup,
}

impl TryFrom<u32> for PageFunction {
    type Error = Unreadable;

    fn try_from(number: u32) -> Result<Self, Unreadable> {
        match number {
            0 => Ok(PageFunction::HeapPageFromBase),
            1 => Ok(PageFunction::AuxHeapPageFromBase),
            2 => Ok(PageFunction::CodePageFromBase),
            3 => Ok(PageFunction::BasePageFromHeap),
            4 => Ok(PageFunction::NextPageGroup),
            _ => Err(Unreadable),
        }
    }
}

fn read_pointer(fields: &mut Fields) -> Result<FatPointer, Unreadable> {
    Ok(FatPointer {
        offset: fields.small()?,
        memory_page: fields.page()?,
        start: fields.small()?,
        length: fields.small()?,
    })
}

// A letter and the numbers of its call, as they must be.
impl FromStr for Call {
    type Err = Unreadable;

    fn from_str(text: &str) -> Result<Self, Unreadable> {
        let (letter, numbers) = text.split_once(' ').ok_or(Unreadable)?;
        let [letter] = letter.as_bytes() else {
            return Err(Unreadable);
        };
        let mut fields = Fields::new(numbers);
        let call = Call::of_letter(*letter, &mut fields)?;
        fields.end()?;
        Ok(call)
    }
}

impl Call {
    fn of_letter(letter: u8, fields: &mut Fields) -> Result<Self, Unreadable> {
        Ok(match letter {
            b'D' => Call::Decode(fields.page()?),
            b'h' => Call::PageArithmetic(PageFunction::try_from(fields.small()?)?, fields.small()?),
            b'P' => Call::Pointer(fields.word()?),
            b'Q' => Call::PointerWord(read_pointer(fields)?),
            b'U' => Call::UseGas(fields.small()?, fields.small()?),
            b'G' => Call::Grow(fields.frame()?, fields.area()?, fields.small()?),
            b'R' => Call::SetRegister(fields.small()?, fields.word()?, fields.flag()?),
            b'e' => Call::Compare(Which::read(fields)?, Which::read(fields)?),
            _ => Call::OnMemory(Which::read(fields)?, MemoryCall::of_letter(letter, fields)?),
        })
    }
}

// ---- calls on a memory

// One of the two memories.
#[derive(Clone, Copy)]
pub enum Which {
    First,
    Second,
}

impl Which {
    fn read(fields: &mut Fields) -> Result<Self, Unreadable> {
        Ok(if fields.flag()? {
            Which::Second
        } else {
            Which::First
        })
    }
}

// A place in a page.
#[derive(Clone, Copy)]
pub struct Location {
    pub page: PageId,
    pub address: Address,
}

impl Location {
    fn read(fields: &mut Fields) -> Result<Self, Unreadable> {
        Ok(Location {
            page: fields.page()?,
            address: fields.address()?,
        })
    }
}

#[derive(Clone, Copy)]
pub enum MemoryCall {
    Open(Layout, Content),
    Allocate(PageId),
    AllocateWithContent(PageId, Content),
    Deallocate(PageId),
    ReadWord(Location),
    ReadWordPartially(Location, Address),
    ReadRange(Location, Address),
    ReadChunk(PageId, u32),
    ReadByte(Location),
    WriteWord(Location, Word),
    WriteBytes(Location, Content),
    CompactToWindow(Location, u32),
    Truncate(u64),
    DynamicLength,
    Snapshot,
    RollBack(u64, u64),
    DeleteHistory,
    Counts,
    Execute(Given),
    ExecuteKept(Instruction),
}

impl MemoryCall {
    fn of_letter(letter: u8, fields: &mut Fields) -> Result<Self, Unreadable> {
        Ok(match letter {
            b'o' => MemoryCall::Open(fields.layout()?, Content::read(fields)?),
            b'a' => MemoryCall::Allocate(fields.page()?),
            b'A' => MemoryCall::AllocateWithContent(fields.page()?, Content::read(fields)?),
            b'f' => MemoryCall::Deallocate(fields.page()?),
            b'r' => MemoryCall::ReadWord(Location::read(fields)?),
            b'p' => MemoryCall::ReadWordPartially(Location::read(fields)?, fields.address()?),
            b'g' => MemoryCall::ReadRange(Location::read(fields)?, fields.address()?),
            b'k' => MemoryCall::ReadChunk(fields.page()?, fields.small()?),
            b'y' => MemoryCall::ReadByte(Location::read(fields)?),
            b'w' => MemoryCall::WriteWord(Location::read(fields)?, fields.word()?),
            b'b' => MemoryCall::WriteBytes(Location::read(fields)?, Content::read(fields)?),
            b'c' => MemoryCall::CompactToWindow(Location::read(fields)?, fields.small()?),
            b'T' => MemoryCall::Truncate(fields.wide()?),
            b'l' => MemoryCall::DynamicLength,
            b's' => MemoryCall::Snapshot,
            b'u' => MemoryCall::RollBack(fields.wide()?, fields.wide()?),
            b'd' => MemoryCall::DeleteHistory,
            b'v' => MemoryCall::Counts,
            b'x' => MemoryCall::Execute(Given::read(fields)?),
            b'X' => MemoryCall::ExecuteKept(Instruction::read(fields)?),
            _ => return Err(Unreadable),
        })
    }
}
