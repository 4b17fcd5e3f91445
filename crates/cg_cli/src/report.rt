//! A report that is written.
ghost use Rattle.std.specs.Prelude.{Ok};
ghost use Rattle.cg_cli.specs.Reports.{Reports};

use cg_faults::fault::CliFault;
use std::io::Write;
use streams::write::write_whole;

/// Writes what is said, and gives its status.
pub fn write_said<W: Write>(out: &mut W, said: (Vec<u8>, u8)) -> Result<u8, CliFault>
    ensures { Reports (record { text = said.0.items; ending = Ok said.1 })
        (W.contents out.old) (W.contents out.new) result }
{
    let (text, status) = said;
    write_whole(out, text.as_slice())?;
    Ok(status)
}
