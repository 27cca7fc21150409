// Standard output, gathered 4,096 bytes at a time.
ghost use Rattle.std.specs.Prelude.{◌≡◌, ◌+◌, ◌<◌, ◌≤◌, length};

use std::io::{Result, Write};

// The bytes that wait, which `flush` writes. What a failed write leaves out is missing from the output, and that alone tells it.
// An array and a count, one struct with their bound: with an ArrayVec no plainer, since its room is asked for in the same places.
#[derive(Drop)]
pub struct Output {
    buffer: [u8; 4096],
    waiting: usize,
    ghost fits: { waiting ≤ 4096 },
}

impl Output {
    pub fn new() -> Output {
        Output {
            buffer: [0; 4096],
            waiting: 0,
        }
    }

    // Behind those that wait.
    #[inline(always)]
    fn put(&mut self, bytes: &[u8])
        requires { self.old.waiting + length bytes.now ≤ 4096 }
        ensures { self.new.waiting ≡ self.old.waiting + length bytes.now }
    {
        let end = self.waiting + bytes.len();
        self.buffer[self.waiting..end].copy_from_slice(bytes);
        self.waiting = end;
    }

    fn write_waiting(&mut self)
        ensures { self.new.waiting ≡ 0 }
    {
        io::write_all(1, &self.buffer[..self.waiting]);
        self.waiting = 0;
    }

    // Bytes that don't all fit: as many as do, and the others up to 4,096 at a time, each time when those that wait are written.
    #[inline(never)]
    fn put_over(&mut self, bytes: &[u8])
        requires { 4096 < self.old.waiting + length bytes.now }
    {
        let (front, behind) = bytes.split_at(4096 - self.waiting);
        self.put(front);
        for piece in behind.chunks(4096) {
            self.write_waiting();
            self.put(piece);
        }
    }
}

impl Write for Output {
    // As many as fit behind those that wait; where none fit, those are written first.
    fn write(&mut self, bytes: &[u8]) -> Result<usize> {
        if self.waiting == 4096 {
            self.flush()?;
        }
        let n = bytes.len().min(4096 - self.waiting);
        self.put(&bytes[..n]);
        Ok(n)
    }

    // At once where all of them fit, as nearly all pieces of an answer do.
    #[inline(always)]
    fn write_all(&mut self, bytes: &[u8]) -> Result<()> {
        if bytes.len() <= 4096 - self.waiting {
            self.put(bytes);
        } else {
            self.put_over(bytes);
        }
        Ok(())
    }

    fn flush(&mut self) -> Result<()> {
        self.write_waiting();
        Ok(())
    }
}
