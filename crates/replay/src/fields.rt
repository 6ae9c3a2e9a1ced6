// The numbers of a call's line, one after another.
use page_ids::{Address, BasePage, Layout, PageId};
use state::{Area, Frame};
use std::str::Split;
use word::Word;

// A line that cannot be read as a call with an answer, or a call that the library cannot be asked.
#[derive(Clone, Copy, Debug, PartialEq, Eq)]
pub struct Unreadable;

// A number of decimal digits. `parse` takes a sign too.
pub fn number(field: &str) -> Result<u64, Unreadable> {
    if field.starts_with('+') {
        return Err(Unreadable);
    }
    field.parse().map_err(|_| Unreadable)
}

// Each method reads the next numbers. It fails where there are too few, or where one is not allowed there.
#[derive(Drop)]
pub struct Fields<'a> {
    rest: Split<'a, char>,
}

impl<'a> Fields<'a> {
    pub fn new(text: &'a str) -> Self {
        Fields {
            rest: text.split(' '),
        }
    }

    pub fn wide(&mut self) -> Result<u64, Unreadable> {
        number(self.rest.next().ok_or(Unreadable)?)
    }

    pub fn small(&mut self) -> Result<u32, Unreadable> {
        u32::try_from(self.wide()?).map_err(|_| Unreadable)
    }

    pub fn flag(&mut self) -> Result<bool, Unreadable> {
        match self.wide()? {
            0 => Ok(false),
            1 => Ok(true),
            _ => Err(Unreadable),
        }
    }

    // Four limbs, the lowest first.
    pub fn word(&mut self) -> Result<Word, Unreadable> {
        let limbs = [self.wide()?, self.wide()?, self.wide()?, self.wide()?];
        Ok(Word { limbs })
    }

    pub fn page(&mut self) -> Result<PageId, Unreadable> {
        Ok(PageId(self.small()?))
    }

    pub fn address(&mut self) -> Result<Address, Unreadable> {
        Ok(Address(self.small()?))
    }

    pub fn area(&mut self) -> Result<Area, Unreadable> {
        Ok(if self.flag()? { Area::Aux } else { Area::Heap })
    }

    pub fn frame(&mut self) -> Result<Frame, Unreadable> {
        Ok(Frame {
            gas: self.small()?,
            heap: self.page()?,
            aux: self.page()?,
            heap_bound: self.small()?,
            aux_bound: self.small()?,
            panicked: false,
        })
    }

    pub fn layout(&mut self) -> Result<Layout, Unreadable> {
        Ok(Layout {
            static_memory: self.page()?,
            calldata: self.page()?,
            bootloader_heap: self.page()?,
            bootloader_aux: self.page()?,
            base: BasePage(self.small()?),
            stride: self.small()?,
        })
    }

    // Nothing is left.
    pub fn end(&mut self) -> Result<(), Unreadable> {
        match self.rest.next() {
            Some(_) => Err(Unreadable),
            None => Ok(()),
        }
    }
}
