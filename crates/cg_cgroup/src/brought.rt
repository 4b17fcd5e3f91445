//! The limit files of one cgroup that controllers bring.
ghost use Rattle.std.specs.Prelude.{◌≡◌, ◌<◌, length};
ghost use Rattle.cg_cgroup.specs.Files.{brought_files};

use crate::cgroup::LimitEntry;
use crate::files::{BROUGHT_COUNT, Limit};
use crate::user::Mode;

/// The limit files that controllers bring, each at its place among `LimitFile::BROUGHT`; `None` for one that doesn't
/// stand.
#[derive(Clone, Copy, Debug, PartialEq, Eq)]
pub struct BroughtFiles {
    pub entries: [Option<LimitEntry>; BROUGHT_COUNT],
    pub ghost whole: { length entries ≡ length brought_files },
}

impl BroughtFiles {
    ghost use Rattle.std.specs.Prelude.{None};
    ghost use Rattle.std.specs.Option.{option_map};
    ghost use Rattle.cg_cgroup.specs.Cgroups.{held_at, holding, with_held, files_by, with_value_of, with_file_mode_of};

    /// None of them.
    pub fn none() -> BroughtFiles
        ensures { result ≡ files_by (λ file. None) }
    {
        BroughtFiles {
            entries: [None; BROUGHT_COUNT],
        }
    }

    /// The file at a place, where it stands.
    pub fn get(&self, place: usize) -> Option<LimitEntry>
        requires { place < length brought_files }
        ensures { result ≡ held_at self.now place }
    {
        self.entries[place]
    }

    /// Sets the file at a place, or takes it away.
    pub fn set(&mut self, place: usize, held: Option<LimitEntry>)
        requires { place < length brought_files }
        ensures { self.new ≡ holding place held self.old }
    {
        self.entries[place] = held;
    }

    /// Sets the value of the file at a place, where it stands.
    pub fn set_value(&mut self, place: usize, value: Limit)
        requires { place < length brought_files }
        ensures { self.new ≡ with_held place (with_value_of value) self.old }
    {
        let held = self.get(place);
        self.set(place, held.map(|held| held.with_value(value)));
    }

    /// Sets the mode of the file at a place, where it stands.
    pub fn set_mode(&mut self, place: usize, mode: Mode)
        requires { place < length brought_files }
        ensures { self.new ≡ with_held place (with_file_mode_of mode) self.old }
    {
        let held = self.get(place);
        self.set(place, held.map(|held| held.with_mode(mode)));
    }
}
