//! What is told of the limit files beyond `LimitFile` of a subtree's cgroup: kept from the start, and compared.
ghost use Rattle.std.specs.Prelude.{◌≡◌, true, OnErr, IfOk, is_some, option_copied};
ghost use Rattle.std.specs.FinMap as map;
ghost use Rattle.std.specs.List.{list_all};
ghost use Rattle.std.specs.Option.{option_eq};
ghost use Rattle.cg_cgroup.specs.Paths.{same_name};
ghost use Rattle.cg_cgroup.specs.Files.{all_others};
ghost use Rattle.cg_model.specs.Limits.{texts_in};

use cg_cgroup::memory::NoMemory;
use cg_cgroup::other_file::OtherFile;
use cg_cgroup::path::Path;
use cg_cgroup::told::{FileText, ToldFiles};
use cg_model::hierarchy::Hierarchy;
use std::alloc::Global;

/// A copy of what is told of a cgroup's files, if anything is.
pub fn told_of<H: Hierarchy>(
    alloc: Global,
    tree: &H,
    path: &Path,
) -> Result<Option<ToldFiles>, NoMemory>
    ensures ok { IfOk result (λ told. told ≡ map.get (H.state tree.now).told path.now) }
    ensures err { OnErr result (is_some (map.get (H.state tree.now).told path.now) ≡ true) }
{
    match tree.told(path, path.depth()) {
        Some(files) => Ok(Some(files.try_clone(alloc)?)),
        None => Ok(None),
    }
}

/// Whether the same values are told of two cgroups' files.
pub fn same_texts(told: Option<&ToldFiles>, other: Option<&ToldFiles>) -> bool
    ensures { result ≡ list_all (λ file. option_eq same_name
        (texts_in (option_copied told.entry) file)
        (texts_in (option_copied other.entry) file)) all_others }
{
    if told.is_none() && other.is_none() {
        return true;
    }
    OtherFile::ALL.iter().all(|file| is_same(text_of(told, *file), text_of(other, *file)))
}

/// The value that is told of a file, if one is.
fn text_of<'a>(told: Option<&'a ToldFiles>, file: OtherFile) -> Option<&'a FileText>
    ensures { option_copied result ≡ texts_in (option_copied told.entry) file }
{
    told?.get(file)?.value.as_ref()
}

/// Whether two values are the same, where they are told.
fn is_same(text: Option<&FileText>, other: Option<&FileText>) -> bool
    ensures { result ≡ option_eq same_name (option_copied text.entry) (option_copied other.entry) }
{
    match (text, other) {
        (Some(text), Some(other)) => text == other,
        (None, None) => true,
        _ => false,
    }
}
