// The answers that are gathered, and written in blocks.
ghost use Rattle.std.specs.Prelude.{◌≡◌, ◌≤◌};

use trace_text::Reply;

// The first `used` bytes are gathered.
#[derive(Drop)]
pub struct Output {
    pub bytes: [u8; 65536],
    pub used: usize,
    pub ghost within: { used ≤ 65536 },
}

// Nothing is gathered.
pub fn empty() -> Output {
    Output {
        bytes: io::large_buffer(),
        used: 0,
    }
}

impl Output {
    ghost use Rattle.trace_text.specs.Text.{reply_of};
    ghost use Rattle.heaptrace.specs.Puts.{Puts};

    // Writes what is gathered.
    pub fn flush(&mut self)
        ensures bytes { self.new.bytes ≡ self.old.bytes }
        ensures used { self.new.used ≡ 0 }
    {
        io::write_all(1, &self.bytes[..self.used]);
        self.used = 0;
    }

    // Gathers one more answer, the longest of which has 135 bytes; what is gathered is written first where they may not fit.
    pub fn put(&mut self, reply: Reply)
        ensures { Puts (reply_of reply) self.old self.new }
    {
        if self.used > 65400 {
            self.flush();
        }
        self.used = trace_text::put_reply(&mut self.bytes, self.used, reply);
    }
}
