// Changes one element of a memory's buffers at a time. The memory is then refused, by every call and unchanged; or it is read as its buffers say.
use crate::call::{Call, PLACES};
use crate::library::{Failure, THREE_DIGITS};
use crate::memory::{Buffer, Memory};
use crate::naive;
use outcome::Refusal;
use page_ids::{Address, PageId};

const NOT_FORMED: Failure = Failure::Refused(Refusal::NotFormed);

// The page that the calls are made on.
const PAGE: u32 = 66;

// The elements that a line damages are fewer than this.
const DAMAGED: u64 = 2000;

// The most elements whose answers are bits of one number.
const BITS: u64 = 64;

// What a damaged element becomes: 0, the highest number of its buffer, or one more, where 0 follows the highest.
#[derive(Clone, Copy)]
enum Mode {
    OneMore,
    Zero,
    Highest,
}

impl From<u64> for Mode {
    fn from(number: u64) -> Self {
        match number {
            1 => Mode::Zero,
            2 => Mode::Highest,
            _ => Mode::OneMore,
        }
    }
}

impl Mode {
    fn changed(self, x: u64, highest: u64) -> u64 {
        match self {
            Mode::Zero => 0,
            Mode::Highest => highest,
            Mode::OneMore if x >= highest => 0,
            Mode::OneMore => x + 1,
        }
    }
}

// What a damaged memory got: it is accepted, or refused, or an answer was wrong.
#[derive(Clone, Copy)]
enum Verdict {
    Accepted,
    Refused,
    Wrong,
}

// What a line damages, and how: each of the first elements of a buffer. A damaged memory gets a read and another call.
#[derive(Clone, Copy)]
pub struct Damage {
    buffer: Buffer,
    mode: Mode,
    elements: u64,
    call: Call,
}

impl From<&[u64; PLACES]> for Damage {
    fn from(numbers: &[u64; PLACES]) -> Self {
        let [_, buffer, mode, elements, letter, ..] = *numbers;
        let mut arguments = [0; PLACES];
        arguments[1] = u64::from(PAGE);
        Damage {
            buffer: Buffer::from(buffer),
            mode: Mode::from(mode),
            elements: elements % DAMAGED,
            call: Call::new((letter & 0xff) as u8, &arguments),
        }
    }
}

// Which elements are refused: as bits, the newest the lowest; how many, the first and the last. And the last one with a wrong answer.
#[derive(Clone, Copy, Default)]
struct Tally {
    bits: u64,
    count: u64,
    first: Option<u64>,
    last: Option<u64>,
    wrong: Option<u64>,
}

impl Tally {
    fn add(&mut self, i: u64, verdict: Verdict) {
        self.bits <<= 1;
        match verdict {
            Verdict::Accepted => {}
            Verdict::Wrong => self.wrong = Some(i),
            Verdict::Refused => {
                self.bits |= 1;
                self.count = self.count.saturating_add(1);
                self.first = self.first.or(Some(i));
                self.last = Some(i);
            }
        }
    }

    // How many are refused, the first and the last, each as three digits.
    fn digits(&self) -> u64 {
        let k = THREE_DIGITS;
        let first = self.first.unwrap_or(0);
        let last = self.last.unwrap_or(0);
        (self.count % k * k + first % k) * k + last % k
    }
}

// What a damaged memory gets.
fn judged(memory: &mut Memory, call: Call) -> Verdict {
    match memory.parts().word(PageId(PAGE), Address(0)) {
        Ok(_) if naive::shows(memory.parts()) => Verdict::Accepted,
        Err(Refusal::NotFormed) if memory.call(call) == Err(NOT_FORMED) => Verdict::Refused,
        _ => Verdict::Wrong,
    }
}

impl Damage {
    // What the memory gets with element i changed; the element is put back.
    fn tried(self, memory: &mut Memory, i: usize) -> Verdict {
        let old = memory.element(self.buffer, i);
        let new = self.mode.changed(old, self.buffer.highest());
        memory.set_element(self.buffer, i, new);
        let got = judged(memory, self.call);
        memory.set_element(self.buffer, i, old);
        got
    }

    // The answer of the line: the bits of at most 64 elements, else digits.
    pub fn answer(self, memory: &mut Memory) -> Result<u64, Failure> {
        let mut tally = Tally::default();
        for i in 0..self.elements {
            tally.add(i, self.tried(memory, i as usize));
        }
        match tally.wrong {
            Some(element) => Err(Failure::WrongElement(element)),
            None if self.elements <= BITS => Ok(tally.bits),
            None => Ok(tally.digits()),
        }
    }
}
