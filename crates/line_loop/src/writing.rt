//! Writes replies: a writer that fails holds a beginning of what was meant.
ghost use Rattle.std.specs.Prelude.{◌≡◌, ℕ, List, OnOk, OnErr, IfErr, false};
ghost use Rattle.std.specs.Io.KnownBytes.{Appends, Keeps};
ghost use Rattle.line_loop.specs.Runs.{WritesFront, EndsAnswering};

use crate::RunError;
use std::io::Write;

/// Writes the bytes, however few the writer takes at a time.
pub fn write_bytes<W: Write>(writer: &mut W, bytes: &[u8]) -> Result<(), RunError>
    ensures ok { OnOk result (Appends (W.contents writer.old) (W.contents writer.new) bytes.now) }
    ensures err { OnErr result ((rest : List ℕ)
        × WritesFront (W.contents writer.old) (W.contents writer.new) rest bytes.now) }
    ensures error { IfErr result (EndsAnswering false) }
{
    let mut rest = bytes;
    while !rest.is_empty() {
        match writer.write(rest) {
            Ok(0) => return Err(RunError::WriteFailed),
            Ok(count) => rest = &rest[count..],
            Err(_) => return Err(RunError::WriteFailed),
        }
    }
    Ok(())
}

/// Flushes the writer, so that whoever waits for a reply gets it.
pub fn flush<W: Write>(writer: &mut W) -> Result<(), RunError>
    ensures kept { Keeps (W.contents writer.old) (W.contents writer.new) }
    ensures error { IfErr result (EndsAnswering false) }
{
    match writer.flush() {
        Ok(()) => Ok(()),
        Err(_) => Err(RunError::WriteFailed),
    }
}
