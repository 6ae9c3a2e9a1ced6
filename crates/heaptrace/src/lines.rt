// Reads blocks of input, parts them into lines, and answers each.
ghost use Rattle.std.specs.Prelude.{◌≡◌, ◌++◌, ◌==◌, ◌<◌, length, take, None, IfSome};
ghost use Rattle.std.specs.List.{position};
ghost use Rattle.io.specs.Counts.{IsPrefixLen};
ghost use Rattle.heaptrace.specs.Answers.{Answers};

use crate::output;
use crate::output::Output;
use arrayvec::ArrayVec;
use std::io::{Read, Stdin};
use trace::Counts;
use trace_calls::Buffers;

// What the program keeps: the memory's space, and its counts if one is open; the line that is gathered, and the answers.
#[derive(Drop)]
pub struct Session {
    pub buffers: Buffers,
    pub current: Option<Counts>,
    pub line: ArrayVec<u8, 104>,
    pub output: Output,
}

// No memory is open, and nothing is gathered.
pub fn start() -> Session
    ensures { result.current ≡ None }
{
    Session {
        buffers: Buffers {
            bytes: [0; 49152],
            keys: [0; 196],
            order: [0; 452],
            words: [0; 1554],
        },
        current: None,
        line: ArrayVec::new(),
        output: output::empty(),
    }
}

// The place of the first newline.
fn first_newline(input: &[u8]) -> Option<usize>
    ensures first { result ≡ position (λ b. b == 10) input.now }
    ensures within { IfSome result (λ place. place < length input.now) }
{
    input.iter().position(|byte| *byte == b'\n')
}

// Adds a piece to the gathered line, as far as there is room. A line that fills the room is too long to be read, and its first 104 bytes mean what the
// whole means: nothing.
fn gather(line: &mut ArrayVec<u8, 104>, piece: &[u8])
    ensures { line.new.items ≡ take 104 (line.old.items ++ piece.now) }
{
    let room = line.remaining_capacity().min(piece.len());
    let _ = line.try_extend_from_slice(&piece[..room]);
}

// Answers the gathered line.
fn answer(session: &mut Session)
    ensures { Answers session.old session.new }
{
    let Session {
        buffers,
        current,
        line,
        output,
    } = session;
    let reply = trace_calls::take(
        &mut buffers.bytes,
        &mut buffers.keys,
        &mut buffers.order,
        &mut buffers.words,
        current,
        line.as_slice(),
    );
    line.clear();
    output.put(reply);
}

// Answers each line that ends in the input, and gathers the rest.
fn block(session: &mut Session, input: &[u8]) {
    let mut rest = input;
    while let Some(end) = first_newline(rest) {
        gather(&mut session.line, &rest[..end]);
        answer(session);
        rest = &rest[end + 1..];
    }
    gather(&mut session.line, rest);
    session.output.flush();
}

// Answers a last line that has no end.
fn finish(session: &mut Session) {
    if !session.line.is_empty() {
        answer(session);
        session.output.flush();
    }
}

// Reads a block of the input, and gives the number of its bytes: 0 where the input ends or cannot be read.
fn read_block(mut from: Stdin, input: &mut [u8]) -> usize
    ensures { IsPrefixLen result input.new }
{
    from.read(input).unwrap_or(0)
}

// Answers the input to its end. A proved loop has to end, so it counts its reads, up to a number that no run uses up.
pub fn run(from: Stdin, session: &mut Session, input: &mut [u8]) {
    for _ in 0..u64::MAX {
        let n = read_block(from, input);
        if n == 0 {
            break;
        }
        block(session, &input[..n]);
    }
    finish(session);
}
