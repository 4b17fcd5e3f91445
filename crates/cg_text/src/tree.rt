//! Tree texts: from bytes to a tree, or the first fault of the text.
ghost use Rattle.std.specs.Prelude.{◌≡◌, ◌≢◌, ◌<◌, length, Some, Err, MatchResult, IfOk};
ghost use Rattle.std.specs.Option.{ok_or};
ghost use Rattle.toml.specs.View.{table_view};
ghost use Rattle.cg_text.specs.Faults.{Reads};
ghost use Rattle.cg_format.specs.TreeTexts.{longest_text, document_of};
ghost use Rattle.cg_format.specs.Readings.{vocabulary_in};
ghost use Rattle.cg_model.specs.Clauses.{first};
ghost use Rattle.cg_format.specs.TextOf.{IsDocumentOf, IsTextOf};
ghost use Rattle.cg_format.specs.TextFaults.{document_faults, text_faults};
ghost use Rattle.cg_format.specs.declared.fault.TreeFault.TheVariants.{NotToml};

mod form;
pub mod laws;
mod processes;
mod row;
mod said;
pub mod takes;
pub mod told;
mod walk;

use cg_cgroup::files::Vocabulary;
pub use cg_format::fault::{Place, TreeFault};
use cg_format::large::longest_text;
use cg_rows::rows::Rows;
use cg_rows::tables::path_table::PathTable;
use form::in_form;
use processes::processes_of;
use row::rows_of;
use said::{elements_at, known_at, take_elements, vocabulary_at};
use std::alloc::Global;
use toml::Table;
use walk::walked;

/// What a text says: its tree, and which controllers are named in what is written of that, and in the lines of operations on it.
#[derive(Drop)]
pub struct Text {
    pub vocabulary: Vocabulary,
    pub rows: Rows,
}

/// The document that bytes are.
fn document_of(alloc: Global, bytes: &[u8]) -> Result<Table, TreeFault>
    ensures { Reads table_view result (ok_or (document_of bytes.now) NotToml) }
{
    match toml::table_from_slice(alloc, bytes) {
        Ok(table) => Ok(table),
        Err(error) => {
            if error.is_memory() {
                Err(TreeFault::NoMemory)
            } else {
                Err(TreeFault::NotToml)
            }
        }
    }
}

/// The tree that a document says, or the document's first fault.
fn tree_of(alloc: Global, mut document: Table) -> Result<Rows, TreeFault>
    ensures { MatchResult result (λ rows. IsDocumentOf rows (table_view document))
        (λ fault. fault ≢ TreeFault.NoMemory → first (document_faults (table_view document)) ≡ Some fault) }
{
    let format = in_form(&document)?;
    let controllers = known_at(&document, "controllers", format).ok_or(TreeFault::BadController(
        Place::Top,
    ))?;
    // a row of the document is dropped once it is read
    let rows = rows_of(alloc, format, take_elements(alloc, &mut document, "cgroup"))?;
    let met = walked(alloc, rows, controllers)?;
    let cgroups = PathTable::from_sorted(met.cgroups);
    let processes = processes_of(alloc, &cgroups, elements_at(&document, "process"))?;
    Ok(Rows::from_tables(
        cgroups,
        processes,
        PathTable::from_sorted(met.told),
        controllers,
    ))
}

/// What a text says, or the text's first fault. `NoMemory` where an allocation was refused.
/// A text that is too long takes no memory.
pub fn read_text(alloc: Global, bytes: &[u8]) -> Result<Text, TreeFault>
    ensures read { MatchResult result (λ text. IsTextOf text.rows bytes.now)
        (λ fault. fault ≢ TreeFault.NoMemory → first (text_faults bytes.now) ≡ Some fault) }
    ensures vocabulary { IfOk result (λ text. text.vocabulary ≡ vocabulary_in bytes.now) }
    ensures too_long { longest_text bytes.now < length bytes.now → result ≡ Err TreeFault.TooLong }
{
    if bytes.len() > longest_text(bytes) {
        return Err(TreeFault::TooLong);
    }
    let document = document_of(alloc, bytes)?;
    let vocabulary = vocabulary_at(&document);
    let rows = tree_of(alloc, document)?;
    Ok(Text { vocabulary, rows })
}

/// The tree that a text is of, or the text's first fault, as `read_text`.
pub fn read_tree(alloc: Global, bytes: &[u8]) -> Result<Rows, TreeFault>
    ensures read { MatchResult result (λ rows. IsTextOf rows bytes.now)
        (λ fault. fault ≢ TreeFault.NoMemory → first (text_faults bytes.now) ≡ Some fault) }
    ensures too_long { longest_text bytes.now < length bytes.now → result ≡ Err TreeFault.TooLong }
{
    Ok(read_text(alloc, bytes)?.rows)
}
