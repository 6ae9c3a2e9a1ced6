// Fat pointers: offset, page, start and length of 32 bits each, from the low end of a word.
// vm2: fat_pointer.rs, whose transmute is arithmetic on limbs here.
#![tactic(auto)]

ghost use Rattle.std.specs.Prelude.{◌≡◌, ◌+◌, ◌*◌, ◌/◌, ◌%◌, ◌^◌};
ghost use Rattle.word.specs.Value.{value};
ghost use Rattle.fat_pointer.specs.Pointer.{pointer_of, pointer_word};

use page_ids::PageId;
use word::Word;

#[derive(Clone, Copy)]
pub struct FatPointer {
    pub offset: u32,
    pub memory_page: PageId,
    pub start: u32,
    pub length: u32,
}

// The lower half of a limb.
fn low(limb: u64) -> u32
    ensures { result ≡ limb % 2 ^ 32 }
{
    (limb % (1 << 32)) as u32
}

// The upper half of a limb.
fn high(limb: u64) -> u32
    ensures { result ≡ limb / 2 ^ 32 % 2 ^ 32 }
{
    low(limb >> 32)
}

// The pointer of a word; the upper 128 bits are ignored.
#[tactic(auto, using(crate::proofs::Fields::of_limbs), unfolding(word::specs::Value::value))]
pub fn from_u256(w: Word) -> FatPointer
    ensures { result ≡ pointer_of (value w.limbs) }
{
    let [a, b, ..] = w.limbs;
    FatPointer {
        offset: low(a),
        memory_page: PageId(high(a)),
        start: low(b),
        length: high(b),
    }
}

// The limb of two halves.
fn pack(low: u32, high: u32) -> u64
    ensures { result ≡ low + 2 ^ 32 * high }
{
    u64::from(low) + (u64::from(high) << 32)
}

// The word of a pointer; the upper 128 bits are zero.
#[tactic(auto, using(crate::proofs::Fields::packed), unfolding(word::specs::Value::value))]
pub fn into_u256(p: FatPointer) -> Word
    ensures { value result.limbs ≡ pointer_word p }
{
    Word {
        limbs: [
            pack(p.offset, p.memory_page.0),
            pack(p.start, p.length),
            0,
            0,
        ],
    }
}
