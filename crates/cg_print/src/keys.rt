//! Tables of a document, key by key.
ghost use Rattle.std.specs.Prelude.{◌≡◌, ◌&&◌, OnOk, IfOk};
ghost use Rattle.toml.specs.Data.{string};
ghost use Rattle.toml.specs.View.{view, table_view};
ghost use Rattle.cg_cgroup.specs.Files.{enables, is_known};
ghost use Rattle.cg_cgroup.specs.Paths.{IsPath, path_text};
ghost use Rattle.cg_print.specs.Carried.{IsId};
ghost use Rattle.cg_print.specs.Documents.{names_in, number, texts_array};
ghost use Rattle.cg_print.specs.Keys.{with_key};

use cg_cgroup::files::{Controller, ControllerSet, Vocabulary};
use cg_cgroup::memory::NoMemory;
use cg_cgroup::path::Path;
use std::alloc::Global;
use toml::{Table, Value};

/// Sets the value at a key of a table. Fails where memory is wanted.
pub(crate) fn put(alloc: Global, table: &mut Table, key: &str, value: Value) -> Result<(), NoMemory>
    ensures { OnOk result (table_view table.new ≡ with_key key.now (view value) (table_view table.old)) }
{
    let name = String::from_str(alloc, key)?;
    drop(table.insert(name, value)?);
    Ok(())
}

/// A uid or a gid, which has 32 bits.
pub(crate) fn id_value(id: u32) -> Value
    ensures written { view result ≡ number id }
    ensures id { IsId id }
{
    Value::from(id)
}

/// The text of a path. Fails where memory is wanted.
pub(crate) fn path_value(alloc: Global, path: &Path) -> Result<Value, NoMemory>
    ensures written { IfOk result (λ value. view value ≡ string (path_text path.now)) }
    ensures path { IsPath path.now }
{
    Ok(Value::string(alloc, path.prefix(path.depth()))?)
}

/// Whether a controller of a set has a name in the vocabulary.
fn is_named(vocabulary: Vocabulary, set: ControllerSet, controller: Controller) -> bool
    ensures { result ≡ (is_known vocabulary controller && enables set controller) }
{
    vocabulary.has(controller) && set.contains(controller)
}

/// The names of the controllers of a set that the vocabulary has, in their order. Fails where memory is wanted.
pub(crate) fn names_array(
    alloc: Global,
    vocabulary: Vocabulary,
    set: ControllerSet,
) -> Result<Value, NoMemory>
    ensures { IfOk result (λ names. view names ≡ texts_array (names_in vocabulary set)) }
{
    let mut names = Vec::new(alloc);
    for controller in Controller::ALL {
        if is_named(vocabulary, set, controller) {
            names.push(Value::string(alloc, controller.name())?)?;
        }
    }
    Ok(Value::Array(names))
}
