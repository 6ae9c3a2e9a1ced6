// The registers that are kept from line to line, all 0 before the first.
use crate::fields::Unreadable;
use crate::numbers::Numbers;
use registers::{FLAGS, LAST_REGISTER, LENGTH};
use word::Word;

// Sets a register, as an instruction does: register 0 stays 0. There may be no such register.
pub fn set(
    registers: &mut [u64; LENGTH],
    n: u32,
    word: Word,
    tagged: bool,
) -> Result<Numbers, Unreadable> {
    if n > LAST_REGISTER {
        return Err(Unreadable);
    }
    registers::set(registers, n, word, tagged);
    Ok(Numbers::from(()))
}

pub fn flags(registers: &[u64; LENGTH]) -> u64 {
    registers[FLAGS]
}

// The digest of all limbs in their order: 0, then for each limb 31 times the digest plus the limb, which wraps at 64 bits.
pub fn digest(registers: &[u64; LENGTH]) -> u64 {
    registers[..FLAGS].iter().fold(0, |digest: u64, limb| {
        digest.wrapping_mul(31).wrapping_add(*limb)
    })
}
