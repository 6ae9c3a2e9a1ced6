// The sixteen registers with their pointer flags, as numbers that a caller lends, and the places that operands come from and go to.
// vm2: addressing_modes.rs, its registers and immediates.
#![tactic(auto)]

ghost use Rattle.std.specs.Prelude.{◌≡◌, true, ◌≤◌, length};
ghost use Rattle.word.specs.Value.{value};
ghost use Rattle.registers.specs.Registers.{registers_from, place_from, load_places_from, store_places_from, operand_of, flag_of, put_flag, with_register, is_register, is_source, register_number, source_of, erased, value_of, load_takes, pointer_takes, store_takes};

use word::Word;

// The numbers: four limbs for each register, the lowest first, and then the set of pointer flags. Bit n of it is the flag of register n; the bits above 15 are neither read nor changed.
pub const FLAGS: usize = 64;
// how many there are
pub const LENGTH: usize = FLAGS + 1;

pub const LAST_REGISTER: u32 = 15;

pub const LAST_IMMEDIATE: u32 = 65535;

// Places as numbers: up to this one a register's number, ..
pub const LAST_REGISTER_CODE: u32 = 65535;
// .. an immediate plus this one, ..
pub const FIRST_IMMEDIATE_CODE: u32 = 65536;
// .. and past this one another form.
pub const LAST_IMMEDIATE_CODE: u32 = 131071;

// One more than the greatest half of a limb.
const HALF_LIMB: u64 = 1 << 32;

// Where an operand comes from or goes to. A form that is neither a register nor an immediate is `Other`.
#[derive(Clone, Copy)]
pub enum Place {
    Register(u32),
    Immediate(u32),
    Other,
}

// A word, and whether it is tagged as a pointer.
#[derive(Clone, Copy)]
pub struct Operand {
    pub word: Word,
    pub tagged: bool,
}

// The places of a load: the operand, the word that it reads, and the operand plus 32 where it increments.
#[derive(Clone, Copy)]
pub struct LoadPlaces {
    pub source: Place,
    pub dst0: Place,
    pub dst1: Place,
    pub increment: bool,
}

// The places of a store: the operand, the stored value, and the operand plus 32 where it increments. It writes no second output, and clears dst1.
#[derive(Clone, Copy)]
pub struct StorePlaces {
    pub source: Place,
    pub value: Place,
    pub dst0: Place,
    pub dst1: Place,
    pub increment: bool,
}

// ---- places

pub fn is_register(place: Place) -> bool
    ensures { result ≡ is_register place }
{
    matches!(place, Place::Register(0..=LAST_REGISTER))
}

pub fn is_source(place: Place) -> bool
    ensures { result ≡ is_source place }
{
    matches!(
        place,
        Place::Register(0..=LAST_REGISTER) | Place::Immediate(0..=LAST_IMMEDIATE)
    )
}

// The number of a register; of another form 0.
pub fn number(place: Place) -> u32
    ensures { result ≡ register_number place }
{
    match place {
        Place::Register(n) => n,
        Place::Immediate(_) | Place::Other => 0,
    }
}

pub fn takes_load(places: LoadPlaces) -> bool
    ensures { result ≡ load_takes places }
{
    is_source(places.source) && is_register(places.dst0) && is_register(places.dst1)
}

// The operand of a pointer read comes from a register.
pub fn takes_pointer(places: LoadPlaces) -> bool
    ensures { result ≡ pointer_takes places }
{
    is_register(places.source) && is_register(places.dst0) && is_register(places.dst1)
}

pub fn takes_store(places: StorePlaces) -> bool
    ensures { result ≡ store_takes places }
{
    is_source(places.source)
        && is_register(places.value)
        && is_register(places.dst0)
        && is_register(places.dst1)
}

// The place that a number is: a register's number, or 65,536 plus an immediate; from 131,072 on another form.
impl From<u32> for Place {
    ghost from_gives = { λ code place. place ≡ place_from code };

    fn from(code: u32) -> Place {
        match code {
            0..=LAST_REGISTER_CODE => Place::Register(code),
            FIRST_IMMEDIATE_CODE..=LAST_IMMEDIATE_CODE => {
                Place::Immediate(code - FIRST_IMMEDIATE_CODE)
            }
            _ => Place::Other,
        }
    }
}

pub fn load_places(source: u32, dst0: u32, dst1: u32, increment: bool) -> LoadPlaces
    ensures { result ≡ load_places_from source dst0 dst1 increment }
{
    LoadPlaces {
        source: Place::from(source),
        dst0: Place::from(dst0),
        dst1: Place::from(dst1),
        increment,
    }
}

pub fn store_places(source: u32, value: u32, dst0: u32, dst1: u32, increment: bool) -> StorePlaces
    ensures { result ≡ store_places_from source value dst0 dst1 increment }
{
    StorePlaces {
        source: Place::from(source),
        value: Place::from(value),
        dst0: Place::from(dst0),
        dst1: Place::from(dst1),
        increment,
    }
}

// ---- flags
// Stays: a register's number is a `u32` that is known to be at most 15, and no type of its own. `place_from` makes a register of each number up to 65,535, and `number` gives 0 for a place that is
// no register, so such a type would have to be made by one more test after `takes_load` and the others.

pub fn flag(flags: u64, n: u32) -> bool
    requires { n ≤ 15 }
    ensures { result ≡ flag_of flags n }
{
    (flags >> n) % 2 == 1
}

#[tactic(auto, using(crate::proofs::Flags::put_on, crate::proofs::Flags::put_off))]
fn put_flag(flags: u64, n: u32, on: bool) -> u64
    requires { n ≤ 15 }
    ensures { result ≡ put_flag flags n on }
{
    if on {
        flags | (1 << n)
    } else {
        flags & !(1 << n)
    }
}

// ---- reading

#[tactic(auto, using(crate::proofs::Values::word_is), unfolding(word::specs::Value::value))]
fn word_at(registers: &[u64], n: u32) -> Word
    requires { (length registers.now ≡ 65) × (n ≤ 15) }
    ensures { value result.limbs ≡ (registers_from registers.now).word n }
{
    let at = 4 * n as usize;
    Word {
        limbs: [
            registers[at],
            registers[at + 1],
            registers[at + 2],
            registers[at + 3],
        ],
    }
}

fn operand_at(registers: &[u64], n: u32) -> Operand
    requires { (length registers.now ≡ 65) × (n ≤ 15) }
    ensures { operand_of result ≡ source_of (registers_from registers.now) (Place.Register n) }
{
    Operand {
        word: word_at(registers, n),
        tagged: flag(registers[FLAGS], n),
    }
}

// What is read at a source, raw.
pub fn source(registers: &[u64], place: Place) -> Operand
    requires { (length registers.now ≡ 65) × (is_source place ≡ true) }
    ensures { operand_of result ≡ source_of (registers_from registers.now) place }
{
    match place {
        Place::Register(n) => operand_at(registers, n),
        Place::Immediate(n) => Operand {
            word: Word::from(n),
            tagged: false,
        },
        Place::Other => Operand {
            word: Word::from(0),
            tagged: false,
        },
    }
}

// The word without the page and the start of its pointer.
#[tactic(auto, using(crate::proofs::Values::erased_limbs), unfolding(word::specs::Value::value))]
pub fn erase(word: Word) -> Word
    ensures { value result.limbs ≡ erased (value word.limbs) }
{
    let [a, b, c, d] = word.limbs;
    Word {
        limbs: [a % HALF_LIMB, b / HALF_LIMB * HALF_LIMB, c, d],
    }
}

// A register read as a plain word: outside kernel mode a pointer is erased.
pub fn value(registers: &[u64], n: u32, kernel: bool) -> Word
    requires { (length registers.now ≡ 65) × (n ≤ 15) }
    ensures { value result.limbs ≡ value_of kernel (registers_from registers.now) n }
{
    let word = word_at(registers, n);
    if flag(registers[FLAGS], n) && !kernel {
        erase(word)
    } else {
        word
    }
}

// ---- writing

// Writes a register and its flag; register 0 is never written.
pub fn set(registers: &mut [u64], n: u32, word: Word, tagged: bool)
    requires { (length registers.old ≡ 65) × (n ≤ 15) }
    ensures { registers_from registers.new ≡ with_register n (value word.limbs) tagged (registers_from registers.old) }
{
    if n != 0 {
        let flags = put_flag(registers[FLAGS], n, tagged);
        let at = 4 * n as usize;
        let [a, b, c, d] = word.limbs;
        // Stays: tried `copy_from_slice`, and it compiles to a copy of the word on the stack and a test for overlap, on the way of each owned load and store
        registers[at] = a;
        registers[at + 1] = b;
        registers[at + 2] = c;
        registers[at + 3] = d;
        registers[FLAGS] = flags;
    }
}
