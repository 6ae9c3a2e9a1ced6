// Reads the lines of the standard input, in blocks.
ghost use Rattle.std.specs.Prelude.{◌≤◌, ◌<◌, length, IfSome};
ghost use Rattle.arrayvec.specs.ArrayVec.{array_vec_len};

use arrayvec::ArrayVec;
use std::io::{Read, Stdin};

// The bytes of a block.
const BLOCK: usize = 65536;

// The most bytes of a line. A longer one counts as several.
pub const MOST: usize = 512;

// The latest block, whose bytes from `start` to `end` are not taken yet. An input that gave nothing, or that cannot be read, has ended: it is read no more.
#[derive(Drop)]
pub struct Input {
    from: Stdin,
    block: [u8; BLOCK],
    start: usize,
    end: usize,
    is_ended: bool,
    ghost in_order: { start ≤ end },
    ghost within: { end ≤ 65536 },
}

// The place of the first newline.
fn first_newline(bytes: &[u8]) -> Option<usize>
    ensures { IfSome result (λ place. place < length bytes.now) }
{
    bytes.iter().position(|byte| *byte == b'\n')
}

impl Input {
    // Nothing is read yet.
    pub fn new(from: Stdin) -> Self {
        Input {
            from,
            block: [0; BLOCK],
            start: 0,
            end: 0,
            is_ended: false,
        }
    }

    pub fn is_ended(&self) -> bool {
        self.is_ended
    }

    // Reads the next block, where all of this one is taken.
    fn fill(&mut self) {
        if self.start == self.end && !self.is_ended {
            self.start = 0;
            self.end = 0;
            self.end = self.from.read(&mut self.block).unwrap_or(0);
            self.is_ended = self.end == 0;
        }
    }

    // Reads the next line, without its end. The last one may have none.
    pub fn read_line(&mut self, line: &mut ArrayVec<u8, MOST>)
        ensures { array_vec_len line.new ≤ 512 }
    {
        line.clear();
        // Each turn ends the line, or takes a byte at least.
        for _ in 0..MOST {
            self.fill();
            let rest = &self.block[self.start..self.end];
            let piece = &rest[..line.remaining_capacity().min(rest.len())];
            if let Some(end) = first_newline(piece) {
                let _ = line.try_extend_from_slice(&piece[..end]);
                self.start += end + 1;
                return;
            }
            if piece.is_empty() {
                return;
            }
            let _ = line.try_extend_from_slice(piece);
            self.start += piece.len();
            if line.is_full() {
                return;
            }
        }
    }
}
