// The words that are written and expected, worked out by hand. A word's limbs stand lowest first; its bytes are those of the limbs, highest first.
use word::Word;

pub const ZERO: Word = Word { limbs: [0; 4] };

// The bytes 1 to 32.
pub const COUNTING: Word = Word {
    limbs: [
        0x191a1b1c1d1e1f20,
        0x1112131415161718,
        0x090a0b0c0d0e0f10,
        0x0102030405060708,
    ],
};

// 16 zeros, and the bytes 1 to 16 after them.
pub const FRONT_HALF: Word = Word {
    limbs: [0x090a0b0c0d0e0f10, 0x0102030405060708, 0, 0],
};

// The bytes 17 to 32, and 16 zeros after them.
pub const BACK_HALF: Word = Word {
    limbs: [0, 0, 0x191a1b1c1d1e1f20, 0x1112131415161718],
};

// The byte 32, and 31 zeros after it.
pub const LAST_BYTE: Word = Word {
    limbs: [0, 0, 0, 0x2000000000000000],
};

// 32 bytes of 171.
pub const MANY_171: Word = Word {
    limbs: [0xabababababababab; 4],
};

// 32 bytes of 205.
pub const MANY_205: Word = Word {
    limbs: [0xcdcdcdcdcdcdcdcd; 4],
};

// A small number as a word.
pub fn small(x: u32) -> Word {
    Word {
        limbs: [u64::from(x), 0, 0, 0],
    }
}
