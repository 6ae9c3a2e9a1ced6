// What a line does to the memory. specs/Trace.antt says it; every number of a refusal is the library's own.
#![tactic(auto)]

ghost use Rattle.std.specs.Prelude.{◌≡◌};
ghost use Rattle.outcome.specs.Outcome.{answer_outcome};
ghost use Rattle.word.specs.Value.{value};
ghost use Rattle.store.specs.Mem.{mem};
ghost use Rattle.view.specs.Calls.{WriteWord, ReadWord, Snapshot, Rollback, nothing};
ghost use Rattle.trace.specs.Language.{meaning, command_line};
ghost use Rattle.trace_text.specs.Text.{reply_of};
ghost use Rattle.trace_calls.specs.Space.{Space};
ghost use Rattle.trace_calls.specs.Trace.{reported, opening_layout, opening_setting, CallTells, OpenTells, LineTells, PartsTell, TraceTells};

use opening::Capacity;
use outcome::Refusal;
use page_ids::{Address, BasePage, Layout, PageId};
use store::head;
use trace::{Command, Counts, Opening};
use trace_text::Reply;
use word::Word;

// What a word of each journal takes: 32 bytes and three numbers a journal.
const WORD_BYTES: usize = 32 * head::JOURNAL_COUNT;

const WORD_NUMBERS: usize = 3 * head::JOURNAL_COUNT;

// Space for 128 chunks, 64 pages and 256 words of each journal, of the lengths that docs/BUFFERS.md states. A caller that has no space of its own keeps
// one of these, and lends its four parts.
#[derive(Drop)]
pub struct Buffers {
    pub bytes: [u8; 49152],
    pub keys: [u64; 196],
    pub order: [u32; 452],
    pub words: [u64; 1554],
}

// ---- the calls, of a memory in just these buffers
// Stays: they take four parts of the space side by side. A struct is no plainer, since the library's calls take four.

fn said(answer: Result<(), Refusal>) -> Reply
    ensures { reply_of result ≡ reported (answer_outcome nothing answer) }
{
    match answer {
        Ok(()) => Reply::Done,
        Err(refusal) => Reply::Refused(u32::from(refusal)),
    }
}

fn write(
    bytes: &mut [u8],
    keys: &mut [u64],
    order: &mut [u32],
    words: &mut [u64],
    page: u32,
    address: u32,
    word: Word,
) -> Reply
    ensures { CallTells (mem bytes.old keys.old order.old words.old) (WriteWord page address (value word.limbs)) (reply_of result) (mem bytes.new keys.new order.new words.new) }
{
    said(writes::write_u256(
        bytes,
        keys,
        order,
        words,
        PageId(page),
        Address(address),
        word,
    ))
}

fn read(bytes: &[u8], keys: &[u64], order: &[u32], words: &[u64], page: u32, address: u32) -> Reply
    ensures { CallTells (mem bytes.now keys.now order.now words.now) (ReadWord page address) (reply_of result) (mem bytes.now keys.now order.now words.now) }
{
    match reads::read_u256(bytes, keys, order, words, PageId(page), Address(address)) {
        Ok(word) => Reply::Word(word),
        Err(refusal) => Reply::Refused(u32::from(refusal)),
    }
}

fn snapshot(bytes: &[u8], keys: &[u64], order: &[u32], words: &[u64]) -> Reply
    ensures { CallTells (mem bytes.now keys.now order.now words.now) Snapshot (reply_of result) (mem bytes.now keys.now order.now words.now) }
{
    match reads::snapshot(bytes, keys, order, words) {
        Ok(marks) => Reply::Marks {
            heap: marks.heap,
            aux: marks.aux,
        },
        Err(refusal) => Reply::Refused(u32::from(refusal)),
    }
}

fn roll_back(
    bytes: &mut [u8],
    keys: &[u64],
    order: &[u32],
    words: &mut [u64],
    heap: u32,
    aux: u32,
) -> Reply
    ensures { CallTells (mem bytes.old keys.now order.now words.old) (Rollback heap aux) (reply_of result) (mem bytes.new keys.now order.now words.new) }
{
    said(history::rollback(bytes, keys, order, words, heap as u64, aux as u64))
}

fn layout_of(opening: Opening) -> Layout
    ensures { result ≡ opening_layout opening }
{
    Layout {
        static_memory: PageId(opening.static_memory),
        calldata: PageId(opening.calldata),
        bootloader_heap: PageId(opening.bootloader_heap),
        bootloader_aux: PageId(opening.bootloader_aux),
        base: BasePage(opening.base),
        stride: opening.stride,
    }
}

fn begin(
    bytes: &mut [u8],
    keys: &mut [u64],
    order: &mut [u32],
    words: &mut [u64],
    opening: Opening,
) -> Reply
    ensures { OpenTells (mem bytes.old keys.old order.old words.old) (opening_setting opening) (reply_of result) (mem bytes.new keys.new order.new words.new) }
{
    let counts = opening.counts;
    let capacity = Capacity {
        chunks: counts.chunks,
        pages: counts.pages,
        journal_words: counts.journal_words,
    };
    said(opening::open(bytes, keys, order, words, layout_of(opening), capacity, &[]))
}

// The call that a command asks.
fn called(
    bytes: &mut [u8],
    keys: &mut [u64],
    order: &mut [u32],
    words: &mut [u64],
    command: Command,
) -> Reply
    ensures { LineTells (mem bytes.old keys.old order.old words.old) (command_line command) (reply_of result) (mem bytes.new keys.new order.new words.new) }
{
    match command {
        Command::Open(opening) => begin(bytes, keys, order, words, opening),
        Command::Write {
            page,
            address,
            word,
        } => write(bytes, keys, order, words, page, address, word),
        Command::Read { page, address } => read(bytes, keys, order, words, page, address),
        Command::Snapshot => snapshot(bytes, keys, order, words),
        Command::Rollback { heap, aux } => roll_back(bytes, keys, order, words, heap, aux),
    }
}

// ---- the space

// The call, in the leading parts of the space that these counts ask for; of counts beyond the space, in parts that are too short for them, which an
// opening refuses by itself.
fn lent(
    bytes: &mut [u8],
    keys: &mut [u64],
    order: &mut [u32],
    words: &mut [u64],
    counts: Counts,
    command: Command,
) -> Reply
    requires { Space bytes.old keys.old order.old words.old }
    ensures { PartsTell counts.chunks counts.pages counts.journal_words (mem bytes.old keys.old order.old words.old) (command_line command) (reply_of result) (mem bytes.new keys.new order.new words.new) }
{
    let chunks = counts.chunks.min(128) as usize;
    let pages = counts.pages.min(64) as usize;
    let journal_words = counts.journal_words.min(256) as usize;
    let b = 256 * chunks + WORD_BYTES * journal_words;
    let k = chunks + pages + head::FIXED_ENTRIES;
    let o = 3 * chunks + pages + head::FIXED_ENTRIES;
    let w = head::LENGTH
        + WORD_NUMBERS * journal_words
        + store::pool_length(chunks as u64) as usize;
    called(
        &mut bytes[..b],
        &mut keys[..k],
        &mut order[..o],
        &mut words[..w],
        command,
    )
}

// ---- lines

// What a command does, and its answer. Before an accepted opening only an opening is carried out; `current` has the open memory's counts, if one is open.
fn carry_out(
    bytes: &mut [u8],
    keys: &mut [u64],
    order: &mut [u32],
    words: &mut [u64],
    current: &mut Option<Counts>,
    command: Command,
) -> Reply
    requires { Space bytes.old keys.old order.old words.old }
    ensures { TraceTells current.old (mem bytes.old keys.old order.old words.old) (command_line command) current.new (reply_of result) (mem bytes.new keys.new order.new words.new) }
{
    if let Command::Open(opening) = command {
        let reply = lent(bytes, keys, order, words, opening.counts, command);
        if let Reply::Done = reply {
            *current = Some(opening.counts);
        }
        return reply;
    }
    match *current {
        Some(counts) => lent(bytes, keys, order, words, counts, command),
        None => Reply::Unread,
    }
}

// What a line does, and its answer.
pub fn take(
    bytes: &mut [u8],
    keys: &mut [u64],
    order: &mut [u32],
    words: &mut [u64],
    current: &mut Option<Counts>,
    line: &[u8],
) -> Reply
    requires { Space bytes.old keys.old order.old words.old }
    ensures { TraceTells current.old (mem bytes.old keys.old order.old words.old) (meaning line.now) current.new (reply_of result) (mem bytes.new keys.new order.new words.new) }
{
    match trace::parse(line) {
        Some(command) => carry_out(bytes, keys, order, words, current, command),
        None => Reply::Unread,
    }
}
