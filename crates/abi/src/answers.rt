// Values returned through an output.
ghost use Rattle.std.specs.Prelude.{◌≡◌, length};
ghost use Rattle.outcome.specs.Outcome.{done, mapped, outcome_by};
ghost use Rattle.word.specs.Value.{value};
ghost use Rattle.view.specs.Calls.{verdict};
ghost use Rattle.reads.specs.Calls.{word_and_count};
ghost use Rattle.page_ids.specs.Decode.{page_of};
ghost use Rattle.abi.specs.Interface.{Gives, partial_at, marks_at, verdict_in};
ghost use Rattle.abi.specs.Numbers.{one, as_they_are, pointer_at, page_numbers, end_numbers};

use crate::status::UNFIT;
use fat_pointer::FatPointer;
use outcome::{NeverZero, Refusal};
use page_ids::{BasePage, DecodedPage, PageId};
use reads::{Marks, PartialWord};
use state::quote::RunEnd;
use word::Word;

// Writes the numbers of an answer, or returns the number of its refusal. An output of another length than the answer has is told before all else.
pub fn give<const N: usize, R: NeverZero>(out: &mut [u64], answer: Result<[u64; N], R>) -> u32
    ensures { Gives N (outcome_by R.number as_they_are answer) as_they_are result out.old out.new }
{
    if out.len() != N {
        return UNFIT;
    }
    match answer {
        Ok(numbers) => {
            out.copy_from_slice(&numbers);
            0
        }
        Err(refusal) => refusal.number(),
    }
}

// ---- the answer of a call

// The four limbs.
pub fn give_word<R: NeverZero>(out: &mut [u64], answer: Result<Word, R>) -> u32
    ensures { Gives 4 (outcome_by R.number (λ w. value w.limbs) answer) value result out.old out.new }
{
    match answer {
        Ok(word) => give::<4, R>(out, Ok(word.limbs)),
        Err(refusal) => give::<4, R>(out, Err(refusal)),
    }
}

// The four limbs, and then how many bytes of the range lead the word.
pub fn give_partial<R: NeverZero>(out: &mut [u64], answer: Result<PartialWord, R>) -> u32
    ensures { Gives 5 (outcome_by R.number word_and_count answer) partial_at result out.old out.new }
{
    match answer {
        Ok(read) => {
            let limbs = read.word.limbs;
            let count = frames::wide(read.bytes_read);
            give::<5, R>(out, Ok([limbs[0], limbs[1], limbs[2], limbs[3], count]))
        }
        Err(refusal) => give::<5, R>(out, Err(refusal)),
    }
}

pub fn give_byte<R: NeverZero>(out: &mut [u64], answer: Result<u8, R>) -> u32
    ensures { Gives 1 (outcome_by R.number (λ b. b) answer) one result out.old out.new }
{
    match answer {
        Ok(byte) => give::<1, R>(out, Ok([u64::from(byte)])),
        Err(refusal) => give::<1, R>(out, Err(refusal)),
    }
}

pub fn give_length<R: NeverZero>(out: &mut [u64], answer: Result<u32, R>) -> u32
    ensures { Gives 1 (outcome_by R.number (λ n. n) answer) one result out.old out.new }
{
    match answer {
        Ok(length) => give::<1, R>(out, Ok([frames::wide(length)])),
        Err(refusal) => give::<1, R>(out, Err(refusal)),
    }
}

// The lengths of the journals of heap and aux heap.
pub fn give_marks<R: NeverZero>(out: &mut [u64], answer: Result<Marks, R>) -> u32
    ensures { Gives 2 (outcome_by R.number (λ k. (k.heap, k.aux)) answer) marks_at result out.old out.new }
{
    match answer {
        Ok(marks) => give::<2, R>(out, Ok([frames::wide(marks.heap), frames::wide(marks.aux)])),
        Err(refusal) => give::<2, R>(out, Err(refusal)),
    }
}

// 1 for equal memories and 0 for different ones.
pub fn give_verdict<R: NeverZero>(out: &mut [u64], answer: Result<bool, R>) -> u32
    ensures { Gives 1 (outcome_by R.number verdict answer) verdict_in result out.old out.new }
{
    match answer {
        Ok(equal) => give::<1, R>(out, Ok([u64::from(equal)])),
        Err(refusal) => give::<1, R>(out, Err(refusal)),
    }
}

pub fn give_page<R: NeverZero>(out: &mut [u64], answer: Result<PageId, R>) -> u32
    ensures { Gives 1 (outcome_by R.number (λ p. p.0) answer) one result out.old out.new }
{
    match answer {
        Ok(page) => give::<1, R>(out, Ok([frames::wide(page.0)])),
        Err(refusal) => give::<1, R>(out, Err(refusal)),
    }
}

pub fn give_base<R: NeverZero>(out: &mut [u64], answer: Result<BasePage, R>) -> u32
    ensures { Gives 1 (outcome_by R.number (λ b. b.0) answer) one result out.old out.new }
{
    match answer {
        Ok(base) => give::<1, R>(out, Ok([frames::wide(base.0)])),
        Err(refusal) => give::<1, R>(out, Err(refusal)),
    }
}

// The number of the page's kind, and its group.
pub fn give_decoding<R: NeverZero>(out: &mut [u64], answer: Result<Option<DecodedPage>, R>) -> u32
    ensures { Gives 2 (mapped page_numbers (outcome_by R.number page_of answer)) as_they_are result out.old out.new }
{
    match answer {
        Ok(page) => {
            let kind = frames::wide(page_ids::kind_number(page));
            let group = frames::wide(page_ids::group_number(page));
            give::<2, R>(out, Ok([kind, group]))
        }
        Err(refusal) => give::<2, R>(out, Err(refusal)),
    }
}

// The gas spent, the bound reached and the position of the end.
pub fn give_quote<R: NeverZero>(out: &mut [u64], answer: Result<RunEnd, R>) -> u32
    ensures { Gives 3 (mapped end_numbers (outcome_by R.number (λ end. end) answer)) as_they_are result out.old out.new }
{
    match answer {
        Ok(end) => {
            let spent = frames::wide(end.spent);
            let bound = frames::wide(end.bound);
            let position = frames::wide(end.position);
            give::<3, R>(out, Ok([spent, bound, position]))
        }
        Err(refusal) => give::<3, R>(out, Err(refusal)),
    }
}

// Offset, page, start and length.
pub fn give_pointer(out: &mut [u64], pointer: FatPointer) -> u32
    ensures { Gives 4 (done pointer) pointer_at result out.old out.new }
{
    let offset = frames::wide(pointer.offset);
    let page = frames::wide(pointer.memory_page.0);
    let start = frames::wide(pointer.start);
    let length = frames::wide(pointer.length);
    give::<4, Refusal>(out, Ok([offset, page, start, length]))
}

// Copies bytes to an output of their length.
pub fn copy(output: &mut [u8], from: &[u8])
    requires { length from.now ≡ length output.old }
    ensures { output.new ≡ from.now }
{
    // Stays: `copy_from_slice` of bytes whose number isn't a constant compiles to a call of memmove, which the C archives don't ask of their host.
    for i in 0..output.len() {
        output[i] = from[i];
    }
}
