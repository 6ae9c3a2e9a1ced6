// The five instructions, each one step of a frame. Its line has one of two forms.
//   X memory op gas heap aux hbound abound area source value dst0 dst1 increment kernel hooking hook = status gas hbound abound stop flags digest
// runs it with the registers that are kept from line to line. The places are numbers, which `registers::Place::from` reads. The answer always has all seven numbers: a refusal has the frame as given.
//   x memory op gas heap aux hbound abound area WORD tag WORD hooking hook = status gas hbound abound WORD NEXT tag stop
// runs it with registers of its own: the operand and its tag in register 1, the stored value in 2, all others 0. The results go to 3 and 4; it increments, in kernel mode.
// The answer is the word read (0 of a store) and the operand plus 32 with its tag. A panic has no more than a frame, and a refusal no more than its number.
ghost use Rattle.std.specs.Prelude.{◌≤◌};

use crate::fields::{Fields, Unreadable};
use execution::Hook;
use page_ids::Address;
use registers::{LoadPlaces, Operand, StorePlaces};
use state::{Area, Frame};
use word::Word;

// In the order of their numbers.
#[derive(Clone, Copy, PartialEq, Eq)]
pub enum Op {
    Load,
    Store,
    LoadPointer,
    LoadStatic,
    StoreStatic,
}

impl TryFrom<u32> for Op {
    type Error = Unreadable;

    fn try_from(number: u32) -> Result<Self, Unreadable> {
        match number {
            0 => Ok(Op::Load),
            1 => Ok(Op::Store),
            2 => Ok(Op::LoadPointer),
            3 => Ok(Op::LoadStatic),
            4 => Ok(Op::StoreStatic),
            _ => Err(Unreadable),
        }
    }
}

impl Op {
    pub fn stores(self) -> bool {
        matches!(self, Op::Store | Op::StoreStatic)
    }

    // In an x, the register of the word that was read.
    pub fn word_register(self) -> u32
        ensures { result ≤ 15 }
    {
        if self.stores() { NO_WORD } else { FIRST }
    }

    // And that of the operand plus 32.
    pub fn next_register(self) -> u32
        ensures { result ≤ 15 }
    {
        if self.stores() { FIRST } else { SECOND }
    }
}

fn read_hook(fields: &mut Fields) -> Result<Hook, Unreadable> {
    Ok(Hook {
        on: fields.flag()?,
        address: fields.address()?,
    })
}

// ---- X

// The places are numbers.
#[derive(Clone, Copy)]
pub struct Instruction {
    pub op: Op,
    pub frame: Frame,
    pub area: Area,
    pub source: u32,
    pub value: u32,
    pub dst0: u32,
    pub dst1: u32,
    pub increment: bool,
    pub kernel: bool,
    pub hook: Hook,
}

impl Instruction {
    pub fn read(fields: &mut Fields) -> Result<Self, Unreadable> {
        Ok(Instruction {
            op: Op::try_from(fields.small()?)?,
            frame: fields.frame()?,
            area: fields.area()?,
            source: fields.small()?,
            value: fields.small()?,
            dst0: fields.small()?,
            dst1: fields.small()?,
            increment: fields.flag()?,
            kernel: fields.flag()?,
            hook: read_hook(fields)?,
        })
    }

    pub fn load_places(&self) -> LoadPlaces {
        registers::load_places(self.source, self.dst0, self.dst1, self.increment)
    }

    pub fn store_places(&self) -> StorePlaces {
        registers::store_places(
            self.source,
            self.value,
            self.dst0,
            self.dst1,
            self.increment,
        )
    }
}

// ---- x

// Register 0 is never written, so it has the 0 that stands for the word of a store.
const NO_WORD: u32 = 0;

pub const OPERAND: u32 = 1;

pub const STORED: u32 = 2;

const FIRST: u32 = 3;

const SECOND: u32 = 4;

// An instruction that is told by its operands.
#[derive(Clone, Copy)]
pub struct Given {
    pub op: Op,
    pub frame: Frame,
    pub area: Area,
    pub operand: Operand,
    pub value: Word,
    pub hook: Hook,
}

impl Given {
    pub fn read(fields: &mut Fields) -> Result<Self, Unreadable> {
        Ok(Given {
            op: Op::try_from(fields.small()?)?,
            frame: fields.frame()?,
            area: fields.area()?,
            operand: Operand {
                word: fields.word()?,
                tagged: fields.flag()?,
            },
            value: fields.word()?,
            hook: read_hook(fields)?,
        })
    }

    // The X that an x is, on the registers that it has.
    pub fn instruction(&self) -> Instruction {
        Instruction {
            op: self.op,
            frame: self.frame,
            area: self.area,
            source: OPERAND,
            value: STORED,
            dst0: FIRST,
            dst1: SECOND,
            increment: true,
            kernel: true,
            hook: self.hook,
        }
    }
}
