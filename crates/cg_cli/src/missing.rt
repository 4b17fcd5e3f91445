//! A path that a tree doesn't have.
ghost use Rattle.std.specs.Prelude.{◌≡◌, IfOk, map, take};
ghost use Rattle.std.specs.FinMap as finmap;
ghost use Rattle.cg_cgroup.specs.Paths.{path_text};
ghost use Rattle.cg_model.specs.States.{State, paths_of};
ghost use Rattle.cg_cli.specs.Missing.{IsAbsent};

use cg_cgroup::cgroup::Cgroup;
use cg_cgroup::path::Path;
use cg_model::hierarchy::Hierarchy;
use cg_rows::rows::Rows;
use std::alloc::{AllocError, Global};
use text_places::near::Missing;

/// Which path is missing in a tree, and which one of the tree's is the nearest; nothing where the tree has it.
pub(crate) fn if_missing(
    alloc: Global,
    tree: &Rows,
    path: &Path,
) -> Result<Option<Missing>, AllocError>
    ensures { IfOk result (λ missing. IsAbsent tree.now path.now missing) }
{
    if tree.get(path, path.depth()).is_some() {
        return Ok(None);
    }
    let paths = texts_of(alloc, tree.entries())?;
    let missing = Missing::among(alloc, path.prefix(path.depth()), paths.as_slice())?;
    Ok(Some(missing))
}

/// The texts of cgroups' paths.
fn texts_of(alloc: Global, cgroups: &[(Path, Cgroup)]) -> Result<Vec<&str>, AllocError>
    ensures { IfOk result (λ texts. map (λ text. text.now) texts.items ≡ map (λ row. path_text row.0) cgroups.now) }
{
    let mut texts = Vec::new(alloc);
    for (path, _) in cgroups {
        texts.push(path.prefix(path.depth()))?;
    }
    Ok(texts)
}
