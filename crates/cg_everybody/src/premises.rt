//! What an answer on everybody stands on: who is left out, and who is in the groups that are listed.
ghost use Rattle.std.specs.Prelude.{◌≡◌, ◌++◌, IfOk, OnOk, string_bytes};
ghost use Rattle.std.specs.List.{flat_map};
ghost use Rattle.cg_everybody.specs.Everybody.{everybody_of, members_of};
ghost use Rattle.cg_everybody.specs.Premises.{but_line, uids_text, group_line, premise_lines};

use crate::asked::{Asked, Members};
use cg_report::pair::push_others;
use std::alloc::{AllocError, Global};

/// A line for each uid that is left out, and then one for each list of a group.
pub fn premise_lines(alloc: Global, asked: &Asked<'_>) -> Result<String, AllocError>
    ensures { IfOk result (λ text. string_bytes text ≡ premise_lines (everybody_of asked.now)) }
{
    let mut text = String::new(alloc);
    push_but(alloc, &mut text, asked.but)?;
    push_groups(alloc, &mut text, asked.groups)?;
    Ok(text)
}

/// The lines of uids behind a text.
fn push_but(alloc: Global, text: &mut String, but: &[u32]) -> Result<(), AllocError>
    ensures { OnOk result (string_bytes text.new ≡ string_bytes text.old ++ flat_map but_line but.now) }
{
    for uid in but {
        let line = format!(in alloc; "but {uid}\n")?;
        text.push_str(line.as_str())?;
    }
    Ok(())
}

/// The lines of groups behind a text.
fn push_groups(alloc: Global, text: &mut String, groups: &[Members<'_>]) -> Result<(), AllocError>
    ensures { OnOk result (string_bytes text.new
        ≡ string_bytes text.old ++ flat_map (λ group. group_line (members_of group)) groups.now) }
{
    for group in groups {
        push_group(alloc, text, group)?;
    }
    Ok(())
}

/// The line of a group behind a text.
fn push_group(alloc: Global, text: &mut String, group: &Members<'_>) -> Result<(), AllocError>
    ensures { OnOk result (string_bytes text.new ≡ string_bytes text.old ++ group_line (members_of group.now)) }
{
    let gid = group.gid;
    let first = format!(in alloc; "group {gid}=")?;
    text.push_str(first.as_str())?;
    push_uids(alloc, text, group.uids)?;
    text.push_str("\n")
}

/// Uids with commas between them behind a text.
fn push_uids(alloc: Global, text: &mut String, uids: &[u32]) -> Result<(), AllocError>
    ensures { OnOk result (string_bytes text.new ≡ string_bytes text.old ++ uids_text uids.now) }
{
    let [uid, others @ ..] = uids else {
        return Ok(());
    };
    let first = format!(in alloc; "{uid}")?;
    text.push_str(first.as_str())?;
    push_others(alloc, text, others)
}
