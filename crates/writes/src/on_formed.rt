// Each write to a memory that is known to be well formed, and each allocation in it: what is left of the call after the test.
// Stays: the lent buffers are parameters side by side. As a struct of four `&mut`, tried in `pool`, they can't be lent as `&` and `&mut` at once,
// so each body would first take the fields out, and each contract would say that the four references stay the same.
ghost use Rattle.std.specs.Prelude.{[]};
ghost use Rattle.outcome.specs.Outcome.{answer_outcome};
ghost use Rattle.word.specs.Value.{value};
ghost use Rattle.store.specs.Mem.{mem};
ghost use Rattle.formed.specs.WellFormed.{WellFormed};
ghost use Rattle.view.specs.Calls.{Call, CallDoes, nothing};

use outcome::Refusal;
use page_ids::{Address, PageId};
use word::Word;

pub fn write_u256(
    bytes: &mut [u8],
    keys: &mut [u64],
    order: &mut [u32],
    words: &mut [u64],
    page: PageId,
    address: Address,
    word: Word,
) -> Result<(), Refusal>
    requires { WellFormed (mem bytes.old keys.old order.old words.old) }
    ensures { CallDoes (mem bytes.old keys.old order.old words.old) (Call.WriteWord page.0 address.0 (value word.limbs)) (answer_outcome nothing result) (mem bytes.new keys.new order.new words.new) }
{
    write_steps::write_word(bytes, keys, order, words, page, address, word)
}

pub fn write_bytes(
    bytes: &mut [u8],
    keys: &mut [u64],
    order: &mut [u32],
    words: &mut [u64],
    page: PageId,
    start: Address,
    src: &[u8],
) -> Result<(), Refusal>
    requires { WellFormed (mem bytes.old keys.old order.old words.old) }
    ensures { CallDoes (mem bytes.old keys.old order.old words.old) (Call.WriteBytes page.0 start.0 src.now) (answer_outcome nothing result) (mem bytes.new keys.new order.new words.new) }
{
    write_steps::write_range(bytes, keys, order, words, page, start, src)
}

pub fn allocate_with_content_at(
    bytes: &mut [u8],
    keys: &mut [u64],
    order: &mut [u32],
    words: &mut [u64],
    page: PageId,
    contents: &[u8],
) -> Result<(), Refusal>
    requires { WellFormed (mem bytes.old keys.old order.old words.old) }
    ensures { CallDoes (mem bytes.old keys.old order.old words.old) (Call.Allocate page.0 contents.now) (answer_outcome nothing result) (mem bytes.new keys.new order.new words.new) }
{
    checks::allocate_refusal(bytes, keys, order, words, page, contents.len())?;
    write_steps::fill(bytes, keys, order, words, page, contents);
    Ok(())
}

pub fn allocate_at(
    bytes: &mut [u8],
    keys: &mut [u64],
    order: &mut [u32],
    words: &mut [u64],
    page: PageId,
) -> Result<(), Refusal>
    requires { WellFormed (mem bytes.old keys.old order.old words.old) }
    ensures { CallDoes (mem bytes.old keys.old order.old words.old) (Call.Allocate page.0 []) (answer_outcome nothing result) (mem bytes.new keys.new order.new words.new) }
{
    checks::allocate_refusal(bytes, keys, order, words, page, 0)?;
    pages::list_page(bytes, keys, order, words, page);
    Ok(())
}
