// The library's calls on a memory in its own parts of the buffers.
ghost use Rattle.std.specs.Prelude.{◌≤◌};

use crate::call::{Call, Change, Look, Opening};
use crate::memory::{BYTES, CHUNK, KEYS, Lengths, Memory, ORDER, Parts, WORDS, narrow};
use opening::Capacity;
use outcome::Refusal;
use page_ids::{Address, PageId};
use reads::Marks;
use word::Word;

// The most bytes that a call hands over, and what each of them is in calldata, in a write and in an allocation's contents.
const HANDED: usize = 600;

const CALLDATA: u8 = 239;

const WRITTEN: u8 = 171;

const CONTENT: u8 = 205;

// The bytes of a range that is read.
const RANGE: usize = 8;

// A factor that keeps numbers of three digits apart.
pub const THREE_DIGITS: u64 = 1000;

// Why a line has no value: the library refused its call, or an answer was wrong.
#[derive(Clone, Copy, PartialEq, Eq)]
pub enum Failure {
    Refused(Refusal),
    // A looked-up part has a wrong length.
    WrongLength,
    // A memory with a damaged element, of this place, was read or refused wrongly.
    WrongElement(u64),
    // A refused call changed a buffer.
    Changed,
}

impl From<Refusal> for Failure {
    fn from(refusal: Refusal) -> Self {
        Failure::Refused(refusal)
    }
}

impl Failure {
    // The number of a refusal; no call is refused with the others.
    pub fn number(self) -> u32 {
        match self {
            Failure::Refused(refusal) => u32::from(refusal),
            Failure::WrongLength => 97,
            Failure::WrongElement(_) => 98,
            Failure::Changed => 99,
        }
    }

    // The value beside it: the number of the wrong element, counted from 1.
    pub fn value(self) -> u64 {
        match self {
            Failure::WrongElement(i) => i.saturating_add(1),
            _ => 0,
        }
    }
}

// ---- calls that look

impl<'a> Parts<'a> {
    pub fn word(self, page: PageId, address: Address) -> Result<Word, Refusal> {
        reads::read_u256(self.bytes, self.keys, self.order, self.words, page, address)
    }

    pub fn byte(self, page: PageId, address: Address) -> Result<u8, Refusal> {
        reads::read_byte(self.bytes, self.keys, self.order, self.words, page, address)
    }

    fn partial(self, page: PageId, start: Address, end: Address) -> Result<Word, Refusal> {
        let read = reads::read_u256_partially(
            self.bytes, self.keys, self.order, self.words, page, start, end,
        )?;
        Ok(read.word)
    }

    // The bytes of a range that must have RANGE bytes.
    fn range(self, page: PageId, start: Address, end: Address) -> Result<[u8; RANGE], Refusal> {
        let mut out = [0; RANGE];
        reads::read_range_big_endian(
            self.bytes, self.keys, self.order, self.words, page, start, end, &mut out,
        )?;
        Ok(out)
    }

    pub fn dynamic_length(self) -> Result<u32, Refusal> {
        reads::dynamic_len(self.bytes, self.keys, self.order, self.words)
    }

    pub fn snapshot(self) -> Result<Marks, Refusal> {
        reads::snapshot(self.bytes, self.keys, self.order, self.words)
    }

    // The bytes of a chunk, by a lookup with a block. The check beside it must say why the part is empty, where it is.
    pub fn chunk(self, page: PageId, number: u32, block: &'a [u8]) -> Result<&'a [u8], Failure> {
        let check = reads::chunk_check(
            self.bytes, self.keys, self.order, self.words, page, number, block,
        );
        let part = reads::chunk(
            self.bytes, self.keys, self.order, self.words, page, number, block,
        );
        match check {
            Ok(()) if part.len() == CHUNK => Ok(part),
            Err(refusal) if part.is_empty() => Err(Failure::Refused(refusal)),
            _ => Err(Failure::WrongLength),
        }
    }

    // Byte i of a chunk.
    fn chunk_byte(self, page: PageId, number: u32, block: &[u8], i: usize) -> Result<u64, Failure> {
        let part = self.chunk(page, number, block)?;
        Ok(part.get(i).map_or(0, |byte| u64::from(*byte)))
    }

    pub fn look(self, look: Look) -> Result<u64, Failure> {
        match look {
            Look::Word {
                page,
                address,
                limb,
            } => {
                let word = self.word(page, address)?;
                Ok(word.limbs[limb.min(3) as usize])
            }
            Look::Byte { page, address } => Ok(u64::from(self.byte(page, address)?)),
            Look::Partial { page, start, end } => Ok(self.partial(page, start, end)?.limbs[3]),
            Look::Range { page, start, end } => {
                let bytes = self.range(page, start, end)?;
                Ok(u64::from(bytes[RANGE - 1]))
            }
            Look::DynamicLength => Ok(u64::from(self.dynamic_length()?)),
            Look::Snapshot => {
                let Marks { heap, aux } = self.snapshot()?;
                Ok(u64::from(heap) * THREE_DIGITS + u64::from(aux))
            }
            Look::Chunk {
                page,
                number,
                place,
            } => { self.chunk_byte(page, number, &[0; CHUNK], usize::from(place)) }
            Look::ChunkBeside {
                page,
                number,
                zeros,
            } => { self.chunk_byte(page, number, &[0; HANDED][..handed(zeros)], 0) }
            Look::ChunkMarked { page, number, mark } => {
                let mut block = [0; CHUNK];
                block[usize::from(mark)] = 1;
                self.chunk_byte(page, number, &block, 0)
            }
        }
    }
}

// ---- calls that change

// How many bytes are handed over where so many are asked for.
fn handed(length: u64) -> usize
    ensures { result ≤ HANDED }
{
    length.min(HANDED as u64) as usize
}

// Opens or changes the memory of these lengths. The library is lent its own parts of the buffers.
// Stays: tried as a method that cuts the parts from `self`, and the proof didn't close: several fields behind one `&mut` are lent whole alone.
fn changed(
    bytes: &mut [u8; BYTES],
    keys: &mut [u64; KEYS],
    order: &mut [u32; ORDER],
    words: &mut [u64; WORDS],
    lengths: Lengths,
    change: Change,
) -> Result<(), Refusal> {
    let bytes = &mut bytes[..lengths.bytes];
    let keys = &mut keys[..lengths.keys];
    let order = &mut order[..lengths.order];
    let words = &mut words[..lengths.words];
    match change {
        Change::Open(opening) => opening::open(
            bytes,
            keys,
            order,
            words,
            opening.layout,
            Capacity {
                chunks: narrow(opening.chunks),
                pages: narrow(opening.pages),
                journal_words: narrow(opening.room),
            },
            &[CALLDATA; HANDED][..handed(opening.calldata)],
        ),
        Change::WriteWord {
            page,
            address,
            word,
        } => writes::write_u256(bytes, keys, order, words, page, address, word),
        Change::WriteBytes {
            page,
            start,
            length,
        } => {
            let source = &[WRITTEN; HANDED][..handed(length)];
            writes::write_bytes(bytes, keys, order, words, page, start, source)
        }
        Change::Allocate { page } => writes::allocate_at(bytes, keys, order, words, page),
        Change::AllocateWithContent { page, length } => {
            let source = &[CONTENT; HANDED][..handed(length)];
            writes::allocate_with_content_at(bytes, keys, order, words, page, source)
        }
        Change::RollBack { heap, aux } => history::rollback(bytes, keys, order, words, heap, aux),
        Change::DeleteHistory => history::delete_history(bytes, keys, order, words),
    }
}

impl Memory {
    // Opens the memory anew or changes it. A refused opening leaves the lengths of the open memory.
    fn change(&mut self, change: Change) -> Result<(), Refusal> {
        let lengths = match change {
            Change::Open(opening) => Lengths::new(opening.chunks, opening.pages, opening.room),
            _ => self.lengths,
        };
        changed(
            &mut self.bytes,
            &mut self.keys,
            &mut self.order,
            &mut self.words,
            lengths,
            change,
        )?;
        self.lengths = lengths;
        Ok(())
    }

    // What a call returns. A refused one must leave the buffers as they were, those past the memory's own parts too.
    pub fn call(&mut self, call: Call) -> Result<u64, Failure> {
        match call {
            Call::Set {
                buffer,
                place,
                value,
            } => {
                let old = self.element(buffer, place);
                self.set_element(buffer, place, value);
                Ok(old)
            }
            Call::Change(change) => {
                let before = *self;
                let answer = self.change(change);
                if answer.is_err() && *self != before {
                    return Err(Failure::Changed);
                }
                answer?;
                Ok(0)
            }
            Call::Look(look) => self.parts().look(look),
        }
    }
}
