// Walks lines of calls, and counts which answers are right. A memory is opened in the leading parts of larger buffers.
ghost use Rattle.std.specs.Prelude.{◌≤◌};

use crate::call::{Call, PLACES};
use crate::damage::Damage;
use crate::library::Failure;
use crate::memory::Memory;

// The places of a line's numbers: from 1 to EQUALS those of the call, and after a '=' the refusal and the value.
const EQUALS: usize = 10;

const VALUE: usize = 12;

// A number that takes another decimal digit is at most this.
const SHORT: u64 = 1844674407370955160;

// A line, without its end.
#[derive(Clone, Copy)]
enum Line<'a> {
    // A comment, or nothing.
    Blank,
    // The text that begins a group.
    Title(&'a [u8]),
    // The end of a group.
    End,
    Call { letter: u8, numbers: [u64; PLACES] },
}

impl<'a> From<&'a [u8]> for Line<'a> {
    // A line begins with its first byte that is not 0.
    fn from(text: &'a [u8]) -> Self {
        let Some(start) = text.iter().position(|byte| *byte != 0) else {
            return Line::Blank;
        };
        let rest = &text[start + 1..];
        match text[start] {
            b'#' => Line::Blank,
            b't' => Line::Title(rest),
            b'.' => Line::End,
            letter => Line::Call {
                letter,
                numbers: numbers_of(rest),
            },
        }
    }
}

// A number with one digit more; one that grows too long stays as it is. A dot and an 'x' are the digits 0 and 1 of a number in base two.
fn longer(x: u64, digit: u8) -> u64 {
    match digit {
        b'.' => x << 1,
        b'x' => x << 1 | 1,
        b'0'..=b'9' if x <= SHORT => x * 10 + u64::from(digit - b'0'),
        _ => x,
    }
}

// The place after a space, or after a '='.
fn next_place(place: usize, byte: u8) -> usize
    requires { place ≤ VALUE }
    ensures { result ≤ VALUE }
{
    match byte {
        b'=' => EQUALS,
        b' ' => (place + 1).min(VALUE),
        _ => place,
    }
}

fn numbers_of(text: &[u8]) -> [u64; PLACES] {
    let mut numbers = [0; PLACES];
    let mut place = 0;
    for byte in text {
        numbers[place] = longer(numbers[place], *byte);
        place = next_place(place, *byte);
    }
    numbers
}

// Prints a title byte by byte: of one that does not fit whole, what fits is written.
fn print_title(rt: &impl Print, title: &[u8]) {
    for byte in title {
        let _ = rt.write_all(&[*byte]);
    }
}

// How many answers were right and wrong since the last title.
#[derive(Clone, Copy, Default)]
struct Tally {
    right: u32,
    wrong: u32,
}

impl Tally {
    // Compares what a line returned with what it must, and counts it. A wrong answer is printed.
    fn judge(
        &mut self,
        rt: &impl Print,
        letter: u8,
        numbers: &[u64; PLACES],
        got: Result<u64, Failure>,
    ) {
        let [.., must_refuse, must_give] = *numbers;
        let (refusal, value) = match got {
            Ok(value) => (0, value),
            Err(failure) => (failure.number(), failure.value()),
        };
        if u64::from(refusal) == must_refuse && value == must_give {
            self.right = self.right.saturating_add(1);
            return;
        }
        self.wrong = self.wrong.saturating_add(1);
        let _ = rt.write_all(b"(");
        let _ = rt.write_all(&[letter]);
        let _ = print!(rt; " gave refusal ");
        let _ = print!(rt; "{refusal}");
        let _ = print!(rt; ", value ");
        let _ = print!(rt; "{value}");
        let _ = print!(rt; ") ");
    }

    // Ends a group: prints how many answers were right, and how many wrong.
    fn end(&mut self, rt: &impl Print) {
        let Tally { right, wrong } = *self;
        *self = Tally::default();
        let _ = print!(rt; ": ");
        let _ = print!(rt; "{right}");
        let _ = print!(rt; " right, ");
        let _ = print!(rt; "{wrong}");
        let _ = println!(rt; " wrong");
    }

    // Carries out a line.
    fn take(&mut self, rt: &impl Print, memory: &mut Memory, line: Line<'_>) {
        match line {
            Line::Blank => {}
            Line::Title(title) => print_title(rt, title),
            Line::End => self.end(rt),
            Line::Call { letter, numbers } => {
                let got = match letter {
                    b'x' => Damage::from(&numbers).answer(memory),
                    _ => memory.call(Call::new(letter, &numbers)),
                };
                self.judge(rt, letter, &numbers, got);
            }
        }
    }
}

// Walks every line of the input. Of a last line with no end only a title counts.
// Each piece is a write of its own: one that cannot be written is left out, and the next is tried.
pub fn walk(rt: &impl Print, memory: &mut Memory, input: &[u8]) {
    let mut tally = Tally::default();
    for line in input.split_inclusive(|byte| *byte == b'\n') {
        match line.strip_suffix(b"\n") {
            Some(line) => tally.take(rt, memory, Line::from(line)),
            None => {
                if let Line::Title(title) = Line::from(line) {
                    print_title(rt, title);
                }
            }
        }
    }
}
