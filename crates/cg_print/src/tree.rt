//! The text of a tree.
ghost use Rattle.std.specs.Prelude.{◌≡◌, ◌≤◌, length, Some, IfOk};
ghost use Rattle.toml.specs.View.{view, table_view};
ghost use Rattle.cg_format.specs.TreeTexts.{longest_text, document_of};
ghost use Rattle.cg_format.specs.TextOf.{IsTextOf};
ghost use Rattle.cg_print.specs.Carried.{IsKept, IsCarried};
ghost use Rattle.cg_print.specs.Documents.{number, format_number, tree_document, IsSpelled};

use crate::cgroups::cgroups_array;
use crate::keys::{names_array, put};
use crate::processes::processes_array;
use cg_cgroup::files::Vocabulary;
use cg_cgroup::memory::NoMemory;
use cg_model::hierarchy::Hierarchy;
use std::alloc::Global;
use toml::{Table, Value};

/// The number of the format that is written.
fn format_value(vocabulary: Vocabulary) -> Value
    ensures { view result ≡ number (format_number vocabulary) }
{
    match vocabulary {
        Vocabulary::Format2 => Value::Integer(2),
        Vocabulary::Format4 => Value::Integer(4),
    }
}

/// The document of a tree.
#[tactic(auto, unfolding(crate::specs::Documents::tree_document))]
fn document_of<H: Hierarchy>(
    alloc: Global,
    vocabulary: Vocabulary,
    tree: &H,
) -> Result<Table, NoMemory>
    ensures written { IfOk result (λ keys. table_view keys ≡ tree_document vocabulary (H.state tree.now)) }
    ensures kept { IfOk result (λ _. IsKept vocabulary (H.state tree.now)) }
{
    let mut keys = Table::new(alloc);
    put(alloc, &mut keys, "format", format_value(vocabulary))?;
    put(
        alloc,
        &mut keys,
        "controllers",
        names_array(alloc, vocabulary, tree.controllers())?,
    )?;
    put(
        alloc,
        &mut keys,
        "cgroup",
        cgroups_array(alloc, vocabulary, tree)?,
    )?;
    put(alloc, &mut keys, "process", processes_array(alloc, tree)?)?;
    Ok(keys)
}

/// The text of a tree, in format 2 or 4 by its vocabulary and with every key written: the cgroups in the order of their paths,
/// the live processes by rising PIDs. In format 4 it has the further limit files of which something is told, with a value where one is
/// told. It is TOML as `toml` spells it. Fails where memory is wanted.
///
/// The text has the tree's state, so that it is read as an equal tree, where
/// - it isn't longer than a text that begins so may be,
/// - the tree has at most 4096 cgroups and 4096 processes, in format 4 at most 65536 of each,
/// - the root has no controller but those of the vocabulary,
/// - in format 2 nothing is told of further limit files, and in format 4 nothing of the root's; what is told of a cgroup's tells of one or
///   more of them, with values that are lines as texts may have them,
/// - the further limit files of which nothing is told are root's with mode 0o644, and
/// - no PID was used but those of the live processes.
pub fn tree_text<H: Hierarchy>(
    alloc: Global,
    vocabulary: Vocabulary,
    tree: &H,
) -> Result<Vec<u8>, NoMemory>
    ensures document { IfOk result (λ text. document_of text.items ≡ Some (tree_document vocabulary (H.state tree.now))) }
    ensures spelled { IfOk result (λ text. IsSpelled vocabulary (H.state tree.now) text.items) }
    ensures state { IfOk result (λ text. IsCarried vocabulary (H.state tree.now) → length text.items ≤ longest_text text.items
        → IsTextOf (H.state tree.now) text.items) }
{
    let document = document_of(alloc, vocabulary, tree)?;
    match toml::table_to_string(alloc, &document) {
        Ok(text) => Ok(text.into_bytes()),
        Err(_) => Err(NoMemory),
    }
}
