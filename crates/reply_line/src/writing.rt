//! Writing by a loop of its own: a writer that fails holds a beginning of what was meant.
ghost use Rattle.std.specs.Prelude.{◌≡◌, ℕ, List, OnOk, OnErr, IfErr};
ghost use Rattle.std.specs.Io.KnownBytes.{Appends};
ghost use Rattle.reply_line.specs.Blocks.{WritesFront};

use meta_types::Fault;
use std::io::Write;

/// Writes the bytes, however few the writer takes at a time.
pub fn write_bytes<W: Write>(writer: &mut W, bytes: &[u8]) -> Result<(), Fault>
    ensures ok { OnOk result (Appends (W.contents writer.old) (W.contents writer.new) bytes.now) }
    ensures err { OnErr result ((rest : List ℕ)
        × WritesFront (W.contents writer.old) (W.contents writer.new) rest bytes.now) }
    ensures fault { IfErr result (λ fault. fault ≡ Fault.WriteFailed) }
{
    let mut rest = bytes;
    while !rest.is_empty() {
        match writer.write(rest) {
            Ok(0) => return Err(Fault::WriteFailed),
            Ok(count) => rest = &rest[count..],
            Err(_) => return Err(Fault::WriteFailed),
        }
    }
    Ok(())
}
