//! Objects, member by member.
ghost use Rattle.std.specs.Prelude.{◌≡◌, IfOk, OnOk};
ghost use Rattle.serde_json.specs.Data.{no_members};
ghost use Rattle.serde_json.specs.View.{view, members_view};
ghost use Rattle.cg_json.specs.Members.{put_text, put_number, numbers_value};

use serde_json::{Map, Value, put};
use std::alloc::{AllocError, Global};

/// An object with one member, which is a text.
pub fn text_alone(alloc: Global, name: &str, text: &str) -> Result<Map<String, Value>, AllocError>
    ensures { IfOk result (λ members. members_view members.entries ≡ put_text name.now text.now no_members) }
{
    let mut members = Map::new(alloc);
    put_text(&mut members, alloc, name, text)?;
    Ok(members)
}

/// One more member, which is a text.
pub fn put_text(
    members: &mut Map<String, Value>,
    alloc: Global,
    name: &str,
    text: &str,
) -> Result<(), AllocError>
    ensures { OnOk result (members_view members.new.entries ≡ put_text name.now text.now (members_view members.old.entries)) }
{
    let value = Value::try_from_str(alloc, text)?;
    put(members, alloc, name, value)
}

/// One more member, which is a number.
pub fn put_number(
    members: &mut Map<String, Value>,
    alloc: Global,
    name: &str,
    number: u64,
) -> Result<(), AllocError>
    ensures { OnOk result (members_view members.new.entries ≡ put_number name.now number (members_view members.old.entries)) }
{
    put(members, alloc, name, Value::from(number))
}

/// A list of numbers.
pub fn numbers_value(alloc: Global, numbers: &[u32]) -> Result<Value, AllocError>
    ensures { IfOk result (λ value. view value ≡ numbers_value numbers.now) }
{
    let mut list = Vec::new(alloc);
    for number in numbers {
        list.push(Value::from(*number))?;
    }
    Ok(Value::from(list))
}
