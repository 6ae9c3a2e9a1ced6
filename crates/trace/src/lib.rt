// Reads a line of a trace: specs/Language.antt says what a line means. The crate `trace_text` writes the answers.
#![tactic(auto)]

ghost use Rattle.std.specs.Prelude.{◌≡◌, ◌+◌, ◌*◌, ◌<◌, ◌^◌, ◌==◌, length, SomeIff, IfSome};
ghost use Rattle.std.specs.List.{position};
ghost use Rattle.word.specs.Value.{value};
ghost use Rattle.trace.specs.Language as language;
ghost use Rattle.trace.specs.Language.{line_kind, led_well, meaning, command_of, hexadecimal as hexadecimal_of};
ghost use Rattle.trace.specs.Reading.{fields_left, before, Decimals, word_number, Reads};

use word::Word;

// The counts of a memory.
// Stays: no `opening::Capacity`, since a line is read in a crate that knows no memory.
#[derive(Clone, Copy)]
pub struct Counts {
    pub chunks: u32,
    pub pages: u32,
    pub journal_words: u32,
}

// A memory that is asked for: the four fixed ids, base and stride, and the counts.
#[derive(Clone, Copy)]
pub struct Opening {
    pub static_memory: u32,
    pub calldata: u32,
    pub bootloader_heap: u32,
    pub bootloader_aux: u32,
    pub base: u32,
    pub stride: u32,
    pub counts: Counts,
}

// What a line asks.
#[derive(Clone, Copy)]
pub enum Command {
    Open(Opening),
    Write { page: u32, address: u32, word: Word },
    Read { page: u32, address: u32 },
    Snapshot,
    Rollback { heap: u32, aux: u32 },
}

// ---- numbers

// The digit that a byte stands for.
#[tactic(auto, unfolding(crate::specs::Language::digit))]
fn digit(byte: u8) -> Option<u64>
    ensures { SomeIff result (language.digit byte < 16) (language.digit byte) }
{
    match byte {
        b'0'..=b'9' => Some(u64::from(byte - b'0')),
        b'a'..=b'f' => Some(u64::from(byte - b'a' + 10)),
        _ => None,
    }
}

// Whether there is a digit, and no zero leads another.
#[tactic(auto, unfolding(crate::specs::Language::led_well))]
fn led_well(field: &[u8]) -> bool
    ensures { result ≡ led_well field.now }
{
    match field {
        [] => false,
        [_] => true,
        [first, ..] => *first != b'0',
    }
}

// The largest number of 32 bits.
const LARGEST: u64 = 4294967295;

// A field as a decimal number of 32 bits.
fn decimal(field: &[u8]) -> Option<u32>
    ensures { result ≡ language.decimal field.now }
{
    if !led_well(field) {
        return None;
    }
    let mut n: u64 = 0;
    for byte in field {
        let d = digit(*byte)?;
        if d >= 10 {
            return None;
        }
        n = n * 10 + d;
        if n > LARGEST {
            return None;
        }
    }
    Some(n as u32)
}

// The word with one hexadecimal digit more at its low end.
fn lengthened(w: Word, low: u64) -> Word
    requires { (value w.limbs < 16 ^ 63) × (low < 16) }
    ensures { value result.limbs ≡ value w.limbs * 16 + low }
{
    let [a, b, c, d] = w.limbs;
    Word {
        limbs: [
            a % (1 << 60) * 16 + low,
            b % (1 << 60) * 16 + a / (1 << 60),
            c % (1 << 60) * 16 + b / (1 << 60),
            d % (1 << 60) * 16 + c / (1 << 60),
        ],
    }
}

// A field as a hexadecimal number of 256 bits.
fn hexadecimal(field: &[u8]) -> Option<Word>
    ensures { word_number result ≡ hexadecimal_of field.now }
{
    if !led_well(field) || field.len() > 64 {
        return None;
    }
    let mut word = Word { limbs: [0; 4] };
    for byte in field {
        word = lengthened(word, digit(*byte)?);
    }
    Some(word)
}

// ---- lines

// The fields of a line that are not read yet, with the spaces between them: none after the last.
#[derive(Drop)]
struct Fields<'a> {
    left: Option<&'a [u8]>,
}

// The place of the first space.
fn first_space(line: &[u8]) -> Option<usize>
    ensures { result ≡ position (λ b. b == 32) line.now }
{
    line.iter().position(|byte| *byte == b' ')
}

impl<'a> Fields<'a> {
    // Takes the next field.
    fn next_field(&mut self) -> Option<&'a [u8]>
        ensures { fields_left self.old ≡ before result (fields_left self.new) }
    {
        let line = self.left?;
        match first_space(line) {
            Some(end) => {
                self.left = Some(&line[end + 1..]);
                Some(&line[..end])
            }
            None => {
                self.left = None;
                Some(line)
            }
        }
    }

    // Takes N decimals.
    fn decimals<const N: usize>(&mut self) -> Option<[u32; N]>
        ensures read { Decimals N (fields_left self.old) result (fields_left self.new) }
        ensures long { IfSome result (λ numbers. length numbers ≡ N) }
    {
        let mut values = [0u32; N];
        for value in values.iter_mut() {
            *value = decimal(self.next_field()?)?;
        }
        Some(values)
    }
}

fn open(fields: &mut Fields) -> Option<Command>
    ensures { Reads language.Open (fields_left fields.old) result (fields_left fields.new) }
{
    let [
        static_memory,
        calldata,
        bootloader_heap,
        bootloader_aux,
        base,
        stride,
        chunks,
        pages,
        journal_words,
    ] = fields.decimals::<9>()?;
    Some(Command::Open(Opening {
        static_memory,
        calldata,
        bootloader_heap,
        bootloader_aux,
        base,
        stride,
        counts: Counts {
            chunks,
            pages,
            journal_words,
        },
    }))
}

fn write(fields: &mut Fields) -> Option<Command>
    ensures { Reads language.Write (fields_left fields.old) result (fields_left fields.new) }
{
    let [page, address] = fields.decimals::<2>()?;
    let word = hexadecimal(fields.next_field()?)?;
    Some(Command::Write {
        page,
        address,
        word,
    })
}

fn read(fields: &mut Fields) -> Option<Command>
    ensures { Reads language.Read (fields_left fields.old) result (fields_left fields.new) }
{
    let [page, address] = fields.decimals::<2>()?;
    Some(Command::Read { page, address })
}

fn roll_back(fields: &mut Fields) -> Option<Command>
    ensures { Reads language.Rollback (fields_left fields.old) result (fields_left fields.new) }
{
    let [heap, aux] = fields.decimals::<2>()?;
    Some(Command::Rollback { heap, aux })
}

// The command that has this name.
#[tactic(auto, unfolding(crate::specs::Language::line_kind), using(crate::proofs::Lines::no_line, crate::proofs::Lines::snapshot_line))]
fn named_command(name: &[u8], fields: &mut Fields) -> Option<Command>
    ensures { Reads (line_kind name.now) (fields_left fields.old) result (fields_left fields.new) }
{
    match name {
        b"open" => open(fields),
        b"w" => write(fields),
        b"r" => read(fields),
        b"s" => Some(Command::Snapshot),
        b"b" => roll_back(fields),
        _ => None,
    }
}

// What a line asks: for every line, the meaning that the language gives it.
pub fn parse(line: &[u8]) -> Option<Command>
    ensures { command_of result ≡ meaning line.now }
{
    let mut fields = Fields { left: Some(line) };
    let name = fields.next_field()?;
    let command = named_command(name, &mut fields)?;
    match fields.left {
        None => Some(command),
        Some(_) => None,
    }
}
