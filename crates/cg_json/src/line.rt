//! An object on a line.
ghost use Rattle.std.specs.Prelude.{◌≡◌, ◌<◌, false, IfOk};
ghost use Rattle.serde_json.specs.Data.{object, members_depth};
ghost use Rattle.serde_json.specs.Read.{max_depth};
ghost use Rattle.serde_json.specs.View.{members_view};
ghost use Rattle.serde_json.specs.Written.{members_have_float};
ghost use Rattle.cg_json.specs.Lines.{IsLineOf};

use cg_cgroup::memory::NoMemory;
use serde_json::{Map, Value};
use std::alloc::Global;

/// The text of an object, and a newline. Fails where memory is wanted.
pub fn line_of(alloc: Global, members: Map<String, Value>) -> Result<Vec<u8>, NoMemory>
    requires exact { members_have_float (members_view members.entries) ≡ false }
    requires within { members_depth (members_view members.entries) < max_depth }
    ensures { IfOk result (λ text. IsLineOf (object (members_view members.entries)) text.items) }
{
    let value = Value::from(members);
    let mut text = value.to_vec(alloc)?;
    text.push(b'\n')?;
    Ok(text)
}
