//! The object of the advice.
ghost use Rattle.std.specs.Prelude.{◌≡◌, ◌++◌, map, IfOk, OnOk};
ghost use Rattle.serde_json.specs.View.{view, members_view};
ghost use Rattle.cg_advice.specs.Found.{stand_let, raised_to, over_raised};
ghost use Rattle.cg_json.specs.Entries.{mend_value};
ghost use Rattle.cg_json.specs.Advice.{stand_value, over_value, fails_value, failing_members, failing_value};
ghost use Rattle.cg_json.specs.Lines.{IsLineOf};

use crate::entry::{at_guard, changes_value, classes_value, entry_members, push_mend};
use crate::line::line_of;
use crate::members::text_alone;
use cg_advice::pair::{Over, Stand};
use cg_cgroup::files::{Limit, LimitFile};
use cg_cgroup::memory::NoMemory;
use cg_cgroup::path::Path;
use cg_model::guard::Guard;
use cg_model::mend::Mend;
use serde_json::{Map, Value, put};
use std::alloc::{AllocError, Global};

/// What is to be changed as JSON, on a line: `fails`, with an object for each entry that lets somebody in and for each subtree that is
/// over its limits, in order, and what mends it. What is written reads as that object.
///
/// # Errors
/// `NoMemory` where an allocation was refused.
pub fn failing_json(
    alloc: Global,
    stands: &[Stand<'_>],
    overs: &[Over<'_>],
) -> Result<Vec<u8>, NoMemory>
    ensures { IfOk result (λ text. IsLineOf (failing_value (map stand_let stands.now) (map over_raised overs.now)) text.items) }
{
    let members = failing_members(alloc, stands, overs)?;
    line_of(alloc, members)
}

/// The members of what is to be changed.
pub fn failing_members(
    alloc: Global,
    stands: &[Stand<'_>],
    overs: &[Over<'_>],
) -> Result<Map<String, Value>, AllocError>
    ensures { IfOk result (λ members. members_view members.entries
        ≡ failing_members (map stand_let stands.now) (map over_raised overs.now)) }
{
    let fails = fails_value(alloc, stands, overs)?;
    let mut members = text_alone(alloc, "answer", "fails")?;
    put(&mut members, alloc, "fails", fails)?;
    Ok(members)
}

/// A list of what fails.
fn fails_value(alloc: Global, stands: &[Stand<'_>], overs: &[Over<'_>]) -> Result<Value, AllocError>
    ensures { IfOk result (λ value. view value ≡ fails_value (map stand_let stands.now) (map over_raised overs.now)) }
{
    let mut list = Vec::new(alloc);
    push_stands(&mut list, alloc, stands)?;
    push_overs(&mut list, alloc, overs)?;
    Ok(Value::from(list))
}

fn push_stands(list: &mut Vec<Value>, alloc: Global, stands: &[Stand<'_>]) -> Result<(), AllocError>
    ensures { OnOk result (map view list.new.items ≡ map view list.old.items ++ map (λ stand. stand_value (stand_let stand)) stands.now) }
{
    for stand in stands {
        let value = stand_value(alloc, stand)?;
        list.push(value)?;
    }
    Ok(())
}

/// The object of an entry: by which classes users get in, and what mends it for all of them.
fn stand_value(alloc: Global, stand: &Stand<'_>) -> Result<Value, AllocError>
    ensures { IfOk result (λ value. view value ≡ stand_value (stand_let stand.now)) }
{
    let mut members = entry_members(alloc, stand.subtree, &stand.at)?;
    let classes = classes_value(alloc, stand.ways)?;
    put(&mut members, alloc, "classes", classes)?;
    let changes = changes_value(alloc, stand.subtree, &stand.at, stand.ways)?;
    put(&mut members, alloc, "changes", changes)?;
    Ok(Value::from(members))
}

fn push_overs(list: &mut Vec<Value>, alloc: Global, overs: &[Over<'_>]) -> Result<(), AllocError>
    ensures { OnOk result (map view list.new.items ≡ map view list.old.items ++ map (λ over. over_value (over_raised over)) overs.now) }
{
    for over in overs {
        let value = over_value(alloc, over)?;
        list.push(value)?;
    }
    Ok(())
}

/// The object of a subtree that is over its limits, and of the limits that are to be raised.
fn over_value(alloc: Global, over: &Over<'_>) -> Result<Value, AllocError>
    ensures { IfOk result (λ value. view value ≡ over_value (over_raised over.now)) }
{
    let subtree = over.subtree;
    let mut changes = Vec::new(alloc);
    push_raised(
        &mut changes,
        alloc,
        subtree,
        LimitFile::MaxDescendants,
        over.descendants,
    )?;
    let depth = over.depth;
    push_raised(&mut changes, alloc, subtree, LimitFile::MaxDepth, depth)?;
    let place = subtree.prefix(subtree.depth());
    let mut members = at_guard(alloc, Guard::AlreadyOver.name(), place)?;
    put(&mut members, alloc, "changes", Value::from(changes))?;
    Ok(Value::from(members))
}

/// The object of a limit that is raised to what is there, where that doesn't fit, behind others.
fn push_raised(
    list: &mut Vec<Value>,
    alloc: Global,
    subtree: &Path,
    file: LimitFile,
    there: Option<u64>,
) -> Result<(), AllocError>
    ensures { OnOk result (map view list.new.items
        ≡ map view list.old.items ++ map (mend_value subtree.now) (raised_to subtree.now file there)) }
{
    let Some(there) = there else {
        return Ok(());
    };
    let mend = Mend::Set {
        len: subtree.depth(),
        file,
        value: Limit::At(there),
    };
    push_mend(list, alloc, subtree, Some(mend))
}
