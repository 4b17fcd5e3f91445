//! What some users reach together.
ghost use Rattle.std.specs.Prelude.{◌≡◌, ◌≤◌, not, length, take};
ghost use Rattle.std.specs.List.{list_any, list_all};
ghost use Rattle.cg_cgroup.specs.Users.{reaches};
ghost use Rattle.cg_cgroup.specs.Files.{all_files, all_others, enables};
ghost use Rattle.cg_cgroup.specs.declared.files.EntryName.TheVariants.{File, Other};
ghost use Rattle.cg_model.specs.WellFormed.{enabled_at};
ghost use Rattle.cg_second.specs.Lasting.{is_reached};
ghost use Rattle.cg_second.specs.Anchors.{is_anchored};
ghost use Rattle.cg_second.specs.Judged.{spares_files};
ghost use Rattle.cg_second.specs.Untold.{spares_entry, spares_others, spares_untold};

use cg_cgroup::cgroup::Cgroup;
use cg_cgroup::files::{Controller, EntryName, LimitFile};
use cg_cgroup::other_file::OtherFile;
use cg_cgroup::path::Path;
use cg_cgroup::user::{Entry, User};
use cg_model::files::entry_at;
use cg_model::hierarchy::Hierarchy;

/// Whether one of some users reaches an entry of the cgroup of the first `len` names of a path.
pub fn is_reached<H: Hierarchy>(
    tree: &H,
    users: &[User],
    path: &Path,
    len: usize,
    name: EntryName,
) -> bool
    requires { len ≤ length path.now }
    ensures { result ≡ is_reached (H.state tree.now) users.now (take len path.now) name }
{
    match entry_at(tree, path, len, name) {
        None => false,
        Some(entry) => any_reaches(users, &entry),
    }
}

fn any_reaches(users: &[User], entry: &Entry) -> bool
    ensures { result ≡ list_any (λ user. reaches user entry.now) users.now }
{
    users.iter().any(|user| user.reaches(entry))
}

/// Whether none of them removes a cgroup, whatever is below it.
pub fn is_anchored<H: Hierarchy>(tree: &H, users: &[User], path: &Path) -> bool
    ensures { result ≡ is_anchored (H.state tree.now) users.now path.now }
{
    if path.depth() == 0 {
        return true;
    }
    !is_reached(tree, users, path, path.depth() - 1, EntryName::Dir)
}

/// Whether none of them reaches a limit file of a cgroup.
pub fn spares_files<H: Hierarchy>(tree: &H, users: &[User], path: &Path) -> bool
    ensures { result ≡ spares_files (H.state tree.now) users.now path.now }
{
    spares_listed(tree, users, path) && spares_beyond(tree, users, path)
}

fn spares_listed<H: Hierarchy>(tree: &H, users: &[User], path: &Path) -> bool
    ensures { result ≡ list_all (λ file. not (is_reached (H.state tree.now) users.now path.now (File file))) all_files }
{
    LimitFile::ALL
        .iter()
        .all(|file| spares(tree, users, path, EntryName::File(*file)))
}

fn spares_beyond<H: Hierarchy>(tree: &H, users: &[User], path: &Path) -> bool
    ensures { result ≡ list_all (λ file. not (is_reached (H.state tree.now) users.now path.now (Other file))) all_others }
{
    if spares_untold(tree, users, path) {
        return true;
    }
    OtherFile::ALL
        .iter()
        .all(|file| spares(tree, users, path, EntryName::Other(*file)))
}

fn spares<H: Hierarchy>(tree: &H, users: &[User], path: &Path, name: EntryName) -> bool
    ensures { result ≡ not (is_reached (H.state tree.now) users.now path.now name) }
{
    !is_reached(tree, users, path, path.depth(), name)
}

/// Whether nothing is told of the limit files beyond `LimitFile` of a cgroup, and none of them reaches one.
pub fn spares_untold<H: Hierarchy>(tree: &H, users: &[User], path: &Path) -> bool
    ensures { result ≡ spares_untold (H.state tree.now) users.now path.now }
{
    let len = path.depth();
    if tree.told(path, len).is_some() {
        return false;
    }
    match tree.get(path, len) {
        None => true,
        Some(cgroup) => spares_others(users, cgroup),
    }
}

fn spares_others(users: &[User], cgroup: &Cgroup) -> bool
    ensures { result ≡ spares_others users.now cgroup.now }
{
    spares_entry(users, cgroup.freeze) && spares_entries(users, &cgroup.others.entries)
}

fn spares_entries(users: &[User], entries: &[Option<Entry>]) -> bool
    ensures { result ≡ list_all (spares_entry users.now) entries.now }
{
    entries.iter().all(|entry| spares_entry(users, *entry))
}

/// Whether none of them reaches an entry, where it is there.
fn spares_entry(users: &[User], entry: Option<Entry>) -> bool
    ensures { result ≡ spares_entry users.now entry }
{
    match entry {
        None => true,
        Some(entry) => !any_reaches(users, &entry),
    }
}

/// Whether the cgroup of the first `len` names of a path enables a controller.
pub fn is_enabled<H: Hierarchy>(tree: &H, path: &Path, len: usize, controller: Controller) -> bool
    requires { len ≤ length path.now }
    ensures { result ≡ enables (enabled_at (H.state tree.now) (take len path.now)) controller }
{
    match tree.get(path, len) {
        None => false,
        Some(cgroup) => cgroup.enabled.contains(controller),
    }
}
