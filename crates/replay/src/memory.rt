// A memory in four buffers of its own, and the library's calls on it.
use crate::call::Location;
use crate::content;
use crate::instruction::{Instruction, Op};
use opening::Capacity;
use outcome::Refusal;
use page_ids::{Address, Layout, PageId};
use reads::Marks;
use registers::LENGTH;
use word::Word;
use write_back::Executed;

// What a memory has room for.
const CAPACITY: Capacity = Capacity {
    chunks: 96,
    pages: 24,
    journal_words: 128,
};

// The lengths of its buffers, by the rule of docs/BUFFERS.md.
const BYTES: usize = 32768;

const KEYS: usize = 124;

const ORDER: usize = 316;

const WORDS: usize = 786;

// The bytes of a chunk.
const CHUNK: usize = 256;

#[derive(Drop)]
pub struct Memory {
    bytes: [u8; BYTES],
    keys: [u64; KEYS],
    order: [u32; ORDER],
    words: [u64; WORDS],
}

impl Memory {
    pub fn new() -> Self {
        Memory {
            bytes: [0; BYTES],
            keys: [0; KEYS],
            order: [0; ORDER],
            words: [0; WORDS],
        }
    }

    // ---- calls that change it

    pub fn open(&mut self, layout: Layout, calldata: &[u8]) -> Result<(), Refusal> {
        opening::open(
            &mut self.bytes,
            &mut self.keys,
            &mut self.order,
            &mut self.words,
            layout,
            CAPACITY,
            calldata,
        )
    }

    pub fn allocate(&mut self, page: PageId) -> Result<(), Refusal> {
        writes::allocate_at(
            &mut self.bytes,
            &mut self.keys,
            &mut self.order,
            &mut self.words,
            page,
        )
    }

    pub fn allocate_with_content(&mut self, page: PageId, content: &[u8]) -> Result<(), Refusal> {
        writes::allocate_with_content_at(
            &mut self.bytes,
            &mut self.keys,
            &mut self.order,
            &mut self.words,
            page,
            content,
        )
    }

    pub fn deallocate(&mut self, page: PageId) -> Result<(), Refusal> {
        freeing::deallocate(
            &mut self.bytes,
            &mut self.keys,
            &mut self.order,
            &mut self.words,
            page,
        )
    }

    pub fn write_word(&mut self, at: Location, word: Word) -> Result<(), Refusal> {
        writes::write_u256(
            &mut self.bytes,
            &mut self.keys,
            &mut self.order,
            &mut self.words,
            at.page,
            at.address,
            word,
        )
    }

    pub fn write_bytes(&mut self, start: Location, content: &[u8]) -> Result<(), Refusal> {
        writes::write_bytes(
            &mut self.bytes,
            &mut self.keys,
            &mut self.order,
            &mut self.words,
            start.page,
            start.address,
            content,
        )
    }

    pub fn compact_to_window(&mut self, start: Location, length: u32) -> Result<(), Refusal> {
        freeing::compact_to_window(
            &mut self.bytes,
            &mut self.keys,
            &mut self.order,
            &mut self.words,
            start.page,
            start.address,
            length,
        )
    }

    pub fn truncate(&mut self, length: u64) -> Result<(), Refusal> {
        freeing::truncate_dynamic_to(
            &mut self.bytes,
            &mut self.keys,
            &mut self.order,
            &mut self.words,
            length,
        )
    }

    pub fn roll_back(&mut self, heap: u64, aux: u64) -> Result<(), Refusal> {
        history::rollback(
            &mut self.bytes,
            &self.keys,
            &self.order,
            &mut self.words,
            heap,
            aux,
        )
    }

    pub fn delete_history(&mut self) -> Result<(), Refusal> {
        history::delete_history(&self.bytes, &self.keys, &self.order, &mut self.words)
    }

    // ---- instructions

    pub fn execute(&mut self, registers: &mut [u64; LENGTH], step: &Instruction) -> Executed {
        if step.op.stores() {
            self.store(registers, step)
        } else {
            self.load(registers, step)
        }
    }

    fn load(&self, registers: &mut [u64; LENGTH], step: &Instruction) -> Executed {
        match step.op {
            Op::Load => instructions::load(
                &self.bytes,
                &self.keys,
                &self.order,
                &self.words,
                registers,
                step.frame,
                step.area,
                step.load_places(),
            ),
            Op::LoadPointer => {
                // vm2 does not tell how many bytes were read, and so no answer has the number.
                instructions::load_pointer(
                    &self.bytes,
                    &self.keys,
                    &self.order,
                    &self.words,
                    registers,
                    step.frame,
                    step.load_places(),
                )
                .executed
            }
            _ => instructions::load_static(
                &self.bytes,
                &self.keys,
                &self.order,
                &self.words,
                registers,
                step.frame,
                step.load_places(),
            ),
        }
    }

    fn store(&mut self, registers: &mut [u64; LENGTH], step: &Instruction) -> Executed {
        match step.op {
            Op::Store => instructions::store(
                &mut self.bytes,
                &mut self.keys,
                &mut self.order,
                &mut self.words,
                registers,
                step.frame,
                step.area,
                step.store_places(),
                step.kernel,
                step.hook,
            ),
            _ => instructions::store_static(
                &mut self.bytes,
                &mut self.keys,
                &mut self.order,
                &mut self.words,
                registers,
                step.frame,
                step.store_places(),
                step.kernel,
            ),
        }
    }

    // ---- calls that read it

    pub fn read_word(&self, at: Location) -> Result<Word, Refusal> {
        reads::read_u256(
            &self.bytes,
            &self.keys,
            &self.order,
            &self.words,
            at.page,
            at.address,
        )
    }

    // Without the number of bytes that lead the word: vm2 does not tell it.
    pub fn read_word_partially(&self, start: Location, end: Address) -> Result<Word, Refusal> {
        let read = reads::read_u256_partially(
            &self.bytes,
            &self.keys,
            &self.order,
            &self.words,
            start.page,
            start.address,
            end,
        )?;
        Ok(read.word)
    }

    pub fn read_range(&self, start: Location, end: Address, out: &mut [u8]) -> Result<(), Refusal> {
        reads::read_range_big_endian(
            &self.bytes,
            &self.keys,
            &self.order,
            &self.words,
            start.page,
            start.address,
            end,
            out,
        )
    }

    pub fn read_byte(&self, at: Location) -> Result<u8, Refusal> {
        reads::read_byte(
            &self.bytes,
            &self.keys,
            &self.order,
            &self.words,
            at.page,
            at.address,
        )
    }

    // The digest of a chunk's bytes.
    pub fn read_chunk(&self, page: PageId, number: u32) -> Result<u64, Refusal> {
        let block = [0u8; CHUNK];
        reads::chunk_check(
            &self.bytes,
            &self.keys,
            &self.order,
            &self.words,
            page,
            number,
            &block,
        )?;
        Ok(content::digest(reads::chunk(
            &self.bytes,
            &self.keys,
            &self.order,
            &self.words,
            page,
            number,
            &block,
        )))
    }

    pub fn dynamic_length(&self) -> Result<u32, Refusal> {
        reads::dynamic_len(&self.bytes, &self.keys, &self.order, &self.words)
    }

    pub fn snapshot(&self) -> Result<Marks, Refusal> {
        reads::snapshot(&self.bytes, &self.keys, &self.order, &self.words)
    }

    // The number of held chunks.
    pub fn held(&self) -> u64 {
        self.words[store::head::HELD]
    }

    pub fn is_equal(&self, other: &Memory) -> Result<bool, Refusal> {
        compare::compare(
            &self.bytes,
            &self.keys,
            &self.order,
            &self.words,
            &other.bytes,
            &other.keys,
            &other.order,
            &other.words,
        )
    }
}
