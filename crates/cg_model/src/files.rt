//! The entries of a tree, and its limit files beyond `LimitFile`.
ghost use Rattle.std.specs.Prelude.{◌≡◌, ◌≤◌, length, take, option_copied};
ghost use Rattle.cg_model.specs.States.{told_at, untold_at, entry_at};

use crate::hierarchy::Hierarchy;
use cg_cgroup::files::EntryName;
use cg_cgroup::other_file::OtherFile;
use cg_cgroup::path::Path;
use cg_cgroup::told::ToldFile;
use cg_cgroup::user::Entry;

/// What is told of a limit file beyond `LimitFile` of the cgroup of the first `len` names of `path`.
pub fn told_at<'a, H: Hierarchy>(
    tree: &'a H,
    path: &Path,
    len: usize,
    file: OtherFile,
) -> Option<&'a ToldFile>
    requires { len ≤ length path.now }
    ensures { option_copied result ≡ told_at (H.state tree.now) (take len path.now) file }
{
    tree.told(path, len)?.get(file)
}

/// Whose such a file is of which nothing is told, where it stands.
pub fn untold_at<H: Hierarchy>(tree: &H, path: &Path, len: usize, file: OtherFile) -> Option<Entry>
    requires { len ≤ length path.now }
    ensures { result ≡ untold_at (H.state tree.now) (take len path.now) file }
{
    tree.get(path, len)?.untold(file)
}

/// The owner, group and mode of an entry, where it is there.
pub fn entry_at<H: Hierarchy>(tree: &H, path: &Path, len: usize, name: EntryName) -> Option<Entry>
    requires { len ≤ length path.now }
    ensures { result ≡ entry_at (H.state tree.now) (take len path.now) name }
{
    let EntryName::Other(file) = name else {
        return tree.get(path, len)?.entry(name);
    };
    match told_at(tree, path, len, file) {
        Some(told) => Some(told.entry),
        None => untold_at(tree, path, len, file),
    }
}
