// The text of an answer. specs/Text.antt says what it is.
#![tactic(auto)]

ghost use Rattle.std.specs.Prelude.{◌≡◌, ℕ, [], ◌∷◌, ◌++◌, ◌+◌, ◌/◌, ◌%◌, ◌≤◌, ◌<◌, eqb, length};
ghost use Rattle.word.specs.Value.{value};
ghost use Rattle.trace_text.specs.Text.{glyph as glyph_of, numeral, Reported, reply_of, text_of, Wrote};
ghost use Rattle.std.proofs.Common.{lit<, lit≤};

use word::Word;

// What a line is answered with.
#[derive(Clone, Copy)]
pub enum Reply {
    Unread,
    Done,
    Word(Word),
    // The lengths of the heap journal and of the aux journal.
    Marks { heap: u32, aux: u32 },
    // The number of the refusal.
    // Stays: a number, since its text is one, whatever refusal it has (`Reported.refused`).
    Refused(u32),
}

// ---- numerals

// A number that is written in some base.
trait Digits: Copy {
    ghost base: { ℕ };

    ghost number: { Self → ℕ };

    // The number's lowest digit.
    fn low_digit(self) -> u8
        ensures digit { result ≡ number self % base }
        ensures small { result < 16 };

    // The number without its lowest digit.
    fn shortened(self) -> Self
        ensures { number result ≡ number self / base };

    fn is_zero(self) -> bool
        ensures { result ≡ eqb (number self) 0 };

    ghost has_digits: { (1 < base) × (base ≤ 16) };
}

// Decimal.
impl Digits for u32 {
    ghost base = { 10 };

    ghost number = { λ n. n };

    fn low_digit(self) -> u8 {
        (self % 10) as u8
    }

    fn shortened(self) -> u32 {
        self / 10
    }

    fn is_zero(self) -> bool {
        self == 0
    }

    ghost has_digits = { (lit< tt, lit≤ tt) };
}

// Hexadecimal.
impl Digits for Word {
    ghost base = { 16 };

    ghost number = { λ w. value w.limbs };

    fn low_digit(self) -> u8 {
        (self.limbs[0] % 16) as u8
    }

    fn shortened(self) -> Word {
        let [a, b, c, d] = self.limbs;
        Word {
            limbs: [
                a / 16 + b % 16 * (1 << 60),
                b / 16 + c % 16 * (1 << 60),
                c / 16 + d % 16 * (1 << 60),
                d / 16,
            ],
        }
    }

    fn is_zero(self) -> bool {
        self.limbs == [0; 4]
    }

    ghost has_digits = { (lit< tt, lit≤ tt) };
}

// The byte of a digit below 16.
fn glyph(digit: u8) -> u8
    requires { digit < 16 }
    ensures { result ≡ glyph_of digit }
{
    if digit < 10 {
        b'0' + digit
    } else {
        b'a' + (digit - 10)
    }
}

// ---- text

// Stays: `write!` into a slice may fail where there is no room, and its clauses do not say when, but `put_reply` cannot fail and says which bytes it
// writes. So the text is put in place by these functions, and not by a `Display`.

// Writes a text from place `at` on, and gives the place after it.
fn put(out: &mut [u8], at: usize, text: &[u8]) -> usize
    requires { at + length text.now ≤ length out.old }
    ensures { Wrote text.now at out.old out.new result }
{
    let end = at + text.len();
    out[at..end].copy_from_slice(text);
    end
}

fn put_numeral<N: Digits>(out: &mut [u8], at: usize, number: N) -> usize
    requires { at + 64 ≤ length out.old }
    ensures { Wrote (numeral N.base 64 (N.number number)) at out.old out.new result }
{
    let mut text = [0u8; 64];
    let mut left = number;
    for i in (0..64).rev() {
        text[i] = glyph(left.low_digit());
        left = left.shortened();
        if left.is_zero() {
            return put(out, at, &text[i..]);
        }
    }
    put(out, at, &text)
}

// The text of an answer, without the end of its line.
#[tactic(auto, using(crate::proofs::Numerals::numeral_length))]
fn put_text(out: &mut [u8], at: usize, r: Reply) -> usize
    requires { at + 134 ≤ length out.old }
    ensures { Wrote (text_of (reply_of r)) at out.old out.new result }
{
    match r {
        Reply::Unread => put(out, at, b"unread"),
        Reply::Done => put(out, at, b"ok"),
        Reply::Word(w) => {
            let at = put(out, at, b"word ");
            put_numeral(out, at, w)
        }
        Reply::Marks { heap, aux } => {
            let at = put(out, at, b"snap ");
            let at = put_numeral(out, at, heap);
            let at = put(out, at, b" ");
            put_numeral(out, at, aux)
        }
        Reply::Refused(number) => {
            let at = put(out, at, b"refused ");
            put_numeral(out, at, number)
        }
    }
}

// Writes the line of an answer from place `at` on, and gives the place after it.
#[tactic(auto, using(crate::proofs::Numerals::reply_length))]
pub fn put_reply(out: &mut [u8], at: usize, r: Reply) -> usize
    requires { at + 135 ≤ length out.old }
    ensures { Wrote (text_of (reply_of r) ++ (10 ∷ [])) at out.old out.new result }
{
    let end = put_text(out, at, r);
    put(out, end, b"\n")
}
