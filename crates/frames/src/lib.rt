// Layouts, frames and words as the numbers of the C interface: what the exported functions are given and write.
#![tactic(auto)]

ghost use Rattle.std.specs.Prelude.{◌≡◌, ◌+◌, ◌≤◌, length};
ghost use Rattle.word.specs.Value.{value, limbs_value};
ghost use Rattle.frames.specs.Frames as spec;
ghost use Rattle.page_ids.specs.Decode.{layout_from};

use page_ids::{BasePage, Layout, PageId};
use state::{Area, Frame};
use word::Word;

// The places of a frame's numbers.
pub const GAS: usize = 0;

pub const HEAP: usize = 1;

pub const AUX: usize = 2;

pub const HEAP_BOUND: usize = 3;

pub const AUX_BOUND: usize = 4;
// 1 after a panic, else 0
pub const MARK: usize = 5;
// how many there are
pub const FRAME_LENGTH: usize = 6;

// 1 or 0.
pub fn bit(set: bool) -> u32
    ensures { result ≡ spec.bit set }
{
    u32::from(set)
}

pub fn wide(x: u32) -> u64
    ensures { result ≡ x }
{
    u64::from(x)
}

pub fn area_of(aux: bool) -> Area
    ensures { result ≡ spec.area_of aux }
{
    if aux { Area::Aux } else { Area::Heap }
}

#[tactic(auto, unfolding(word::specs::Value::value))]
pub fn word_of(limb0: u64, limb1: u64, limb2: u64, limb3: u64) -> Word
    ensures { value result.limbs ≡ limbs_value limb0 limb1 limb2 limb3 }
{
    Word {
        limbs: [limb0, limb1, limb2, limb3],
    }
}

pub fn layout_of(
    static_memory: u32,
    calldata_page: u32,
    bootloader_heap: u32,
    bootloader_aux: u32,
    base: u32,
    stride: u32,
) -> Layout
    ensures { result ≡ layout_from static_memory calldata_page bootloader_heap bootloader_aux base stride }
{
    Layout {
        static_memory: PageId(static_memory),
        calldata: PageId(calldata_page),
        bootloader_heap: PageId(bootloader_heap),
        bootloader_aux: PageId(bootloader_aux),
        base: BasePage(base),
        stride,
    }
}

pub fn frame_of(frame: &[u32]) -> Frame
    requires { length frame.now ≡ 6 }
    ensures { result ≡ spec.frame_from frame.now }
{
    Frame {
        gas: frame[GAS],
        heap: PageId(frame[HEAP]),
        aux: PageId(frame[AUX]),
        heap_bound: frame[HEAP_BOUND],
        aux_bound: frame[AUX_BOUND],
        panicked: frame[MARK] != 0,
    }
}

pub fn put_frame(frame: &mut [u32], f: Frame)
    requires { length frame.old ≡ 6 }
    ensures { frame.new ≡ spec.frame_numbers f }
{
    frame.copy_from_slice(&[
        f.gas,
        f.heap.0,
        f.aux.0,
        f.heap_bound,
        f.aux_bound,
        bit(f.panicked),
    ]);
}

// Gas and bounds alone: the pages and the mark stay the numbers that they were.
pub fn put_growth(frame: &mut [u32], after: Frame)
    requires { length frame.old ≡ 6 }
    ensures { frame.new ≡ spec.grown_numbers frame.old after }
{
    frame[GAS] = after.gas;
    frame[HEAP_BOUND] = after.heap_bound;
    frame[AUX_BOUND] = after.aux_bound;
}

// The four limbs of a word, to `out` from `at` on.
#[tactic(auto, using(word::proofs::Copied::limbs_copied))]
pub fn put_word(out: &mut [u64], at: usize, word: Word)
    requires { at + 4 ≤ length out.old }
    ensures { out.new ≡ spec.limbs_put out.old at word.limbs }
{
    out[at..at + 4].copy_from_slice(&word.limbs);
}
