// The bytes of a call, which a line has by their number and a seed, and the digest of bytes.
use crate::fields::{Fields, Unreadable};

// The most bytes of a call.
pub const MOST: usize = 1024;

// How much each byte is more than the one before it.
const STEP: u8 = 31;

const DIGEST_FACTOR: u64 = 257;

const DIGEST_MODULUS: u64 = 4294967291;

#[derive(Clone, Copy)]
pub struct Content {
    count: u32,
    seed: u32,
}

impl Content {
    pub fn read(fields: &mut Fields) -> Result<Self, Unreadable> {
        Ok(Content {
            count: fields.small()?,
            seed: fields.small()?,
        })
    }

    // Makes the bytes in a buffer; the first is the seed. There may be too many.
    pub fn bytes<'a>(&self, buffer: &'a mut [u8; MOST]) -> Result<&'a [u8], Unreadable> {
        let mut next = (self.seed % 256) as u8;
        for byte in buffer.iter_mut() {
            *byte = next;
            next = next.wrapping_add(STEP);
        }
        buffer.get(..self.count as usize).ok_or(Unreadable)
    }
}

pub fn digest(bytes: &[u8]) -> u64 {
    bytes.iter().fold(0, |digest: u64, byte| {
        (digest % DIGEST_MODULUS * DIGEST_FACTOR + u64::from(*byte) + 1) % DIGEST_MODULUS
    })
}
