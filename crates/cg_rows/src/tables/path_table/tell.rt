//! Tables of what is told of limit files beyond `LimitFile`.
ghost use Rattle.std.specs.Prelude.{◌≡◌, cond, map as map_list, unwrap_or, Some, OnOk, OnErr};
ghost use Rattle.std.specs.FinMap as map;
ghost use Rattle.cg_cgroup.specs.Paths.{is_child};
ghost use Rattle.cg_cgroup.specs.Told.{nothing_told, telling, told_under};
ghost use Rattle.cg_model.specs.States.{change_each};

use crate::tables::kin::is_child;
use crate::tables::path_table::{PathTable, range_below, search};
use cg_cgroup::files::ControllerSet;
use cg_cgroup::memory::NoMemory;
use cg_cgroup::other_file::OtherFile;
use cg_cgroup::path::Path;
use cg_cgroup::told::{ToldFile, ToldFiles};
use std::alloc::Global;

fn keep_one(path: &Path, enabled: ControllerSet, other: &Path, files: &mut ToldFiles)
    ensures { files.new ≡ cond (is_child path.now other.now) (told_under enabled files.old) files.old }
{
    if is_child(path, path.depth(), other) {
        files.keep(enabled);
    }
}

fn keep_all(entries: &mut [(Path, ToldFiles)], path: &Path, enabled: ControllerSet)
    ensures { entries.new ≡ map_list (λ e. (e.0, cond (is_child path.now e.0) (told_under enabled e.1) e.1)) entries.old }
{
    for entry in entries.iter_mut() {
        keep_one(path, enabled, &entry.0, &mut entry.1);
    }
}

impl PathTable<ToldFiles> {
    /// Keeps what is told of the files of a cgroup's children that stand where it enables these.
    pub fn keep(&mut self, path: &Path, enabled: ControllerSet)
        ensures { self.new ≡ change_each (λ q files. cond (is_child path.now q) (told_under enabled files) files) self.old }
    {
        let (start, end) = range_below(&self.entries, path, path.depth());
        keep_all(&mut self.entries[start..end], path, enabled);
    }

    /// Tells of a file of a cgroup. Fails where memory is wanted.
    pub fn tell(
        &mut self,
        alloc: Global,
        path: &Path,
        file: OtherFile,
        told: ToldFile,
    ) -> Result<(), NoMemory>
        ensures ok { OnOk result (self.new ≡ map.insert self.old path.now (telling file (Some told) (unwrap_or (map.get self.old path.now) nothing_told))) }
        ensures err { OnErr result (self.new ≡ self.old) }
    {
        match search(&self.entries, path) {
            Ok(at) => {
                self.entries[at].1.set(file, told);
                Ok(())
            }
            Err(at) => {
                let path = path.try_clone(alloc)?;
                let mut files = ToldFiles::none(alloc)?;
                files.set(file, told);
                self.entries.insert(at, (path, files))?;
                Ok(())
            }
        }
    }
}
