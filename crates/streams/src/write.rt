//! Writes that are never tried again.
ghost use Rattle.std.specs.Prelude.{◌≡◌, OnOk, OnErr};
ghost use Rattle.std.specs.Io.KnownBytes.{Appends};
ghost use Rattle.streams.specs.Written.{AppendsPart};

use std::io::Write;

/// A write failed, or took no bytes.
#[derive(Clone, Copy, Debug, PartialEq, Eq)]
pub struct WriteFailed;

/// Writes a text whole, in as many writes as the writer needs.
///
/// The first write that fails or takes nothing ends it, and isn't tried again: what was written then is the front
/// of the text, and some of the text is missing.
pub fn write_whole<W: Write>(out: &mut W, text: &[u8]) -> Result<(), WriteFailed>
    ensures ok { OnOk result (Appends (W.contents out.old) (W.contents out.new) text.now) }
    ensures err { OnErr result (AppendsPart (W.contents out.old) (W.contents out.new) text.now) }
{
    let mut written = 0;
    while written < text.len() {
        match out.write(&text[written..]) {
            Ok(0) | Err(_) => return Err(WriteFailed),
            Ok(count) => written += count,
        }
    }
    Ok(())
}
