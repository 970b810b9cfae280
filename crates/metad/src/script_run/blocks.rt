//! A writer that hands its bytes on in blocks.
ghost use Rattle.std.specs.Prelude.{◌≡◌, ◌≤◌, [], length, take, drop, vec_len, IfOk, OnOk};
ghost use Rattle.std.specs.Io.{WritesAtMost};
ghost use Rattle.std.specs.Io.KnownBytes.{Appends, Keeps, WriteAppends};
ghost use Rattle.metad.specs.Blocks.{inner_of, kept_back, contents_of};

use std::alloc::{AllocError, Global};
use std::io::{self, Write};

/// How many bytes are kept back at most.
const BLOCK: usize = 8192;

/// Keeps bytes back until there is a block of them, or it is flushed. A write that takes less than
/// it is given is followed by one of the rest. What is no smaller than a block isn't kept back. A
/// write that fails, also one that is interrupted, fails here too, where the library's buffer would
/// try an interrupted one again; what it left unwritten is kept back as before, and what it took is
/// kept back no more.
#[derive(Drop)]
pub struct Blocks<W: Write + Drop> {
    writer: W,
    bytes: Vec<u8>,
}

// Hands bytes on until all are, or a write fails. Tells how many were.
fn write_out<W: Write>(bytes: &[u8], writer: &mut W) -> (usize, io::Result<()>)
    ensures bound { result.0 ≤ length bytes.now }
    ensures all { OnOk result.1 (result.0 ≡ length bytes.now) }
    ensures bytes { Appends (W.contents writer.old) (W.contents writer.new)
        (take result.0 bytes.now) }
{
    let mut written = 0;
    while written < bytes.len() {
        match writer.write(&bytes[written..]) {
            Ok(0) => return (written, Err(io::Error::from(io::ErrorKind::WriteZero))),
            Ok(count) => written += count,
            Err(error) => return (written, Err(error)),
        }
    }
    (written, Ok(()))
}

// Takes bytes off the front.
fn remove_front(bytes: &mut Vec<u8>, count: usize)
    requires { count ≤ vec_len bytes.old }
    ensures { bytes.new.items ≡ drop count bytes.old.items }
{
    let len = bytes.len();
    bytes.as_mut_slice().copy_within(count..len, 0);
    bytes.truncate(len - count);
}

impl<W: Write + Drop> Blocks<W> {
    /// Room for a block before this writer.
    pub fn new(alloc: Global, writer: W) -> Result<Blocks<W>, AllocError>
        ensures inner { IfOk result (λ blocks. inner_of blocks ≡ writer) }
        ensures empty { IfOk result (λ blocks. kept_back blocks ≡ []) }
    {
        let bytes = Vec::with_capacity(alloc, BLOCK)?;
        Ok(Blocks { writer, bytes })
    }

    // Hands on all bytes that were kept back.
    fn hand_on(&mut self) -> io::Result<()>
        ensures ok { OnOk result (kept_back self.new ≡ []) }
        ensures bytes { Keeps (contents_of W.contents self.old)
            (contents_of W.contents self.new) }
    {
        let (count, result) = write_out(self.bytes.as_slice(), &mut self.writer);
        remove_front(&mut self.bytes, count);
        result
    }

    // Hands on what was kept back, and then of these bytes as many as the writer takes at once.
    fn write_through(&mut self, buf: &[u8]) -> io::Result<usize>
        ensures bound { WritesAtMost result buf.now }
        ensures bytes { WriteAppends (contents_of W.contents self.old)
            (contents_of W.contents self.new) result buf.now }
    {
        match self.hand_on() {
            Ok(()) => self.writer.write(buf),
            Err(error) => Err(error),
        }
    }

    // Hands a block on that is full.
    fn make_room(&mut self) -> io::Result<()>
        ensures { Keeps (contents_of W.contents self.old) (contents_of W.contents self.new) }
    {
        let is_full = self.bytes.len() >= BLOCK;
        if is_full {
            return self.hand_on();
        }
        Ok(())
    }
}

impl<W: Write + Drop> Write for Blocks<W> {
    ghost contents = { contents_of W.contents };

    fn write(&mut self, buf: &[u8]) -> io::Result<usize> {
        if buf.len() >= BLOCK {
            return self.write_through(buf);
        }
        self.make_room()?;
        let room = BLOCK.saturating_sub(self.bytes.len());
        let count = room.min(buf.len());
        self.bytes.extend_from_slice(&buf[..count])?;
        Ok(count)
    }

    fn flush(&mut self) -> io::Result<()>
        ensures bytes { Keeps (contents_of W.contents self.old)
            (contents_of W.contents self.new) }
        ensures ok { OnOk result (kept_back self.new ≡ []) }
    {
        self.hand_on()?;
        self.writer.flush()
    }
}
