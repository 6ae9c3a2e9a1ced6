// Words of 256 bits: four limbs of 64 bits, the lowest first; 32 bytes, the highest first.
// vm2: the part of `U256` that its memory uses, and `bigger_than_last_address` of heap_access.rs.
#![tactic(auto)]

ghost use Rattle.std.specs.Prelude.{◌≡◌, ◌+◌, ◌*◌, ◌%◌, ◌≤◌, ◌<◌, ◌^◌, ltb};
ghost use Rattle.word.specs.Value.{value, bytes_at, big_endian, word_bytes, last_address};

#[repr(C)]
#[derive(Clone, Copy, PartialEq, Eq)]
pub struct Word {
    pub limbs: [u64; 4],
}

// The word of a number of 32 bits.
impl From<u32> for Word {
    ghost from_gives = { λ number word. value word.limbs ≡ number };

    #[tactic(auto, unfolding(crate::specs::Value::value))]
    fn from(number: u32) -> Word {
        Word {
            limbs: [u64::from(number), 0, 0, 0],
        }
    }
}

// The limb of eight bytes, the highest first.
#[tactic(auto, using(crate::proofs::Bytes::eight))]
fn limb_at(bytes: &[u8; 32], at: usize) -> u64
    requires { at + 8 ≤ 32 }
    ensures { result ≡ bytes_at bytes.now at 8 }
{
    u64::from_be_bytes([
        bytes[at],
        bytes[at + 1],
        bytes[at + 2],
        bytes[at + 3],
        bytes[at + 4],
        bytes[at + 5],
        bytes[at + 6],
        bytes[at + 7],
    ])
}

#[tactic(auto, using(crate::proofs::Bytes::limbs), unfolding(crate::specs::Value::value))]
pub fn from_big_endian(bytes: [u8; 32]) -> Word
    ensures { value result.limbs ≡ big_endian bytes }
{
    Word {
        limbs: [
            limb_at(&bytes, 24),
            limb_at(&bytes, 16),
            limb_at(&bytes, 8),
            limb_at(&bytes, 0),
        ],
    }
}

pub fn to_big_endian(w: Word) -> [u8; 32]
    ensures { (big_endian result ≡ value w.limbs) × (result ≡ word_bytes (value w.limbs)) }
{
    let [a, b, c, d] = w.limbs;
    let mut bytes = [0u8; 32];
    bytes[..8].copy_from_slice(&d.to_be_bytes());
    bytes[8..16].copy_from_slice(&c.to_be_bytes());
    bytes[16..24].copy_from_slice(&b.to_be_bytes());
    bytes[24..].copy_from_slice(&a.to_be_bytes());
    bytes
}

// The last address to which 32 can be added within 32 bits: the operand limit of loads and stores.
pub const LAST_ADDRESS: u32 = u32::MAX - 32;

// Whether the word is above a number of 32 bits, decided on limbs.
#[tactic(auto, using(crate::proofs::Limbs::above_upper, crate::proofs::Limbs::only_a), unfolding(crate::specs::Value::value))]
fn is_above(w: Word, limit: u32) -> bool
    ensures { result ≡ ltb limit (value w.limbs) }
{
    match w.limbs {
        [low, 0, 0, 0] => low > u64::from(limit),
        _ => true,
    }
}

// Whether an operand lies past the last address to which 32 can be added within 32 bits.
pub fn bigger_than_last_address(w: Word) -> bool
    ensures { result ≡ ltb last_address (value w.limbs) }
{
    is_above(w, LAST_ADDRESS)
}

#[tactic(auto, unfolding(crate::specs::Value::value))]
pub fn low_u32(w: Word) -> u32
    ensures { result ≡ value w.limbs % 2 ^ 32 }
{
    (w.limbs[0] % (1 << 32)) as u32
}

// Whether a hook can stop with this value.
pub fn fits_u32(w: Word) -> bool
    ensures { result ≡ ltb (value w.limbs) (2 ^ 32) }
{
    !is_above(w, u32::MAX)
}

// The incremented operand: the whole word plus 32, modulo 2^256.
#[tactic(auto, using(crate::proofs::Limbs::carry, crate::proofs::Limbs::sum_is), unfolding(crate::specs::Value::value))]
pub fn plus_32(w: Word) -> Word
    ensures { value result.limbs ≡ (value w.limbs + 32) % 2 ^ 256 }
{
    let [a, b, c, d] = w.limbs;
    let (a, carry) = a.overflowing_add(32);
    let (b, carry) = b.overflowing_add(u64::from(carry));
    let (c, carry) = c.overflowing_add(u64::from(carry));
    let d = d.wrapping_add(u64::from(carry));
    Word {
        limbs: [a, b, c, d],
    }
}
