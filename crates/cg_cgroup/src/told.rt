//! What is told of the limit files beyond `LimitFile` of one cgroup.
ghost use Rattle.std.specs.Prelude.{◌≡◌, cond, length, map, IfOk, Some, None, option_copied};
ghost use Rattle.cg_cgroup.specs.OtherKinds.{all_others, brought_by};
ghost use Rattle.cg_cgroup.specs.Files.{stands_by};

use crate::controllers::ControllerSet;
use crate::memory::NoMemory;
use crate::other_file::{OTHER_COUNT, OtherFile};
use crate::user::{Entry, Mode};
use std::alloc::Global;
use std::marker::Model;

/// A value of such a file: its lines, with a newline between two.
#[derive(Debug, Drop)]
pub struct FileText {
    pub text: String,
}

impl Model for FileText {
    ghost use Rattle.std.specs.Prelude.{List, ℕ};
    ghost use Rattle.std.specs.String.{string_bytes};

    ghost Value = { List ℕ };

    ghost view = { λ text. string_bytes text.text };
}

impl PartialEq for FileText {
    ghost use Rattle.cg_cgroup.specs.Paths.{same_name};
    ghost use Rattle.std.specs.Cmp.{partial_equiv_from_equiv};
    ghost use Rattle.std.proofs.lemmas.Cmp.{nat_list_eq_equiv};

    ghost eq = { same_name };

    ghost laws = { partial_equiv_from_equiv nat_list_eq_equiv };

    fn eq(&self, other: &FileText) -> bool {
        self.text == other.text
    }
}

impl Eq for FileText {
    ghost use Rattle.std.proofs.lemmas.Cmp.{nat_list_eq_equiv};

    ghost laws = { nat_list_eq_equiv };
}

impl FileText {
    /// An equal text. Fails where memory is wanted.
    pub fn try_clone(&self, alloc: Global) -> Result<FileText, NoMemory>
        ensures { IfOk result (λ copy. copy ≡ self.now) }
    {
        Ok(FileText {
            text: String::from_str(alloc, &self.text)?,
        })
    }
}

/// What is told of a file: its owner and mode, and its value; `None` where it stays as it is.
#[derive(Debug, Drop, PartialEq, Eq)]
pub struct ToldFile {
    pub entry: Entry,
    pub value: Option<FileText>,
}

impl ToldFile {
    /// An equal one. Fails where memory is wanted.
    pub fn try_clone(&self, alloc: Global) -> Result<ToldFile, NoMemory>
        ensures { IfOk result (λ copy. copy ≡ self.now) }
    {
        let value = match &self.value {
            Some(value) => Some(value.try_clone(alloc)?),
            None => None,
        };
        Ok(ToldFile {
            entry: self.entry,
            value,
        })
    }
}

/// What is told of a cgroup's files, each at its number; `None` for one of which nothing is.
#[derive(Debug, Drop)]
pub struct ToldFiles {
    entries: Box<[Option<ToldFile>; OTHER_COUNT]>,
    ghost whole: { length entries.value ≡ length all_others },
}

impl Model for ToldFiles {
    ghost use Rattle.std.specs.Coded.{codes};
    ghost use Rattle.cg_cgroup.specs.ToldList.{ToldList};

    ghost Value = { ToldList };

    ghost coded = { Prim.hlevel codes };

    ghost view = { λ t. record { entries = t.entries.value; whole = t.whole } };
}

impl ToldFiles {
    ghost use Rattle.cg_cgroup.specs.Told.{nothing_told, told_in, telling, told_under};

    /// Nothing. Fails where memory is wanted.
    pub fn none(alloc: Global) -> Result<ToldFiles, NoMemory>
        ensures { IfOk result (λ files. files ≡ nothing_told) }
    {
        Ok(ToldFiles {
            entries: Box::new(alloc, none_told())?,
        })
    }

    /// What is told of each, at its number.
    pub fn entries(&self) -> &[Option<ToldFile>]
        ensures { result.now ≡ self.now.entries }
    {
        self.entries.as_slice()
    }

    /// What is told of a file.
    pub fn get(&self, file: OtherFile) -> Option<&ToldFile>
        ensures { option_copied result ≡ told_in self.now file }
    {
        self.entries[file.number()].as_ref()
    }

    /// Tells of a file.
    pub fn set(&mut self, file: OtherFile, told: ToldFile)
        ensures { self.new ≡ telling file (Some told) self.old }
    {
        self.entries[file.number()] = Some(told);
    }

    /// Keeps what is told of those files that these controllers bring, or the core.
    pub fn keep(&mut self, enabled: ControllerSet)
        ensures { self.new ≡ told_under enabled self.old }
    {
        for at in 0..OTHER_COUNT {
            keep_one(&mut self.entries[at], OtherFile::ALL[at], enabled);
        }
    }

    /// An equal one. Fails where memory is wanted.
    pub fn try_clone(&self, alloc: Global) -> Result<ToldFiles, NoMemory>
        ensures { IfOk result (λ copy. copy ≡ self.now) }
    {
        let mut entries = Box::new(alloc, none_told())?;
        for at in 0..OTHER_COUNT {
            let copy = copy_of(&self.entries[at], alloc)?;
            entries[at] = copy;
        }
        Ok(ToldFiles { entries })
    }
}

/// Nothing of each file.
fn none_told() -> [Option<ToldFile>; OTHER_COUNT]
    ensures { result ≡ map (λ file. None) all_others }
{
    OtherFile::ALL.map(|_| None)
}

/// An equal one, where something is told.
fn copy_of(told: &Option<ToldFile>, alloc: Global) -> Result<Option<ToldFile>, NoMemory>
    ensures { IfOk result (λ copy. copy ≡ told.now) }
{
    match told {
        Some(told) => Ok(Some(told.try_clone(alloc)?)),
        None => Ok(None),
    }
}

/// Keeps what is told of a file where it stands at a child of a cgroup that enables these.
fn keep_one(told: &mut Option<ToldFile>, file: OtherFile, enabled: ControllerSet)
    ensures { told.new ≡ cond (stands_by enabled (brought_by file)) told.old None }
{
    if !file.stands_under(enabled) {
        *told = None;
    }
}
