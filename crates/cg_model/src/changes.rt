//! What a user writes to a `cgroup.subtree_control`.
ghost use Rattle.std.specs.Prelude.{◌≡◌, ◌++◌, [], ◌∷◌, OnOk, OnErr};
ghost use Rattle.cg_model.specs.Changes.{effective, enabled_after};

use cg_cgroup::files::{Controller, ControllerSet};
use cg_cgroup::memory::NoMemory;
use std::alloc::Global;
use std::marker::Model;

/// One word: enables (`+`) or disables (`-`) a controller for a cgroup's children.
#[derive(Clone, Copy, Debug, PartialEq, Eq)]
pub struct Change {
    pub on: bool,
    pub controller: Controller,
}

/// The changes of one write to a `cgroup.subtree_control`, in order. Of several on one controller the last is effective.
#[derive(Debug, Drop)]
pub struct Changes {
    items: Vec<Change>,
}

impl Model for Changes {
    ghost use Rattle.std.specs.Prelude.{List};
    ghost use Rattle.cg_model.specs.declared.changes.Change.{Change};

    ghost Value = { List Change };

    ghost view = { λ c. c.items.items };
}

impl Changes {
    /// No change.
    pub fn new(alloc: Global) -> Changes
        ensures { result ≡ [] }
    {
        Changes {
            items: Vec::new(alloc),
        }
    }

    /// Adds a change after the others.
    pub fn push(&mut self, change: Change) -> Result<(), NoMemory>
        ensures ok { OnOk result (self.new ≡ self.old ++ change ∷ []) }
        ensures err { OnErr result (self.new ≡ self.old) }
    {
        self.items.push(change)?;
        Ok(())
    }

    /// The changes, in order.
    pub fn as_slice(&self) -> &[Change]
        ensures { result.now ≡ self.now }
    {
        self.items.as_slice()
    }

    /// Whether the last change of a controller enables it; `None` where no change names it.
    pub fn effective(&self, controller: Controller) -> Option<bool>
        ensures { result ≡ effective self.now controller }
    {
        self.items
            .iter()
            .rev()
            .find(|change| change.controller == controller)
            .map(|change| change.on)
    }

    /// What is enabled once the changes have taken effect.
    pub fn enabled_after(&self, enabled: ControllerSet) -> ControllerSet
        ensures { result ≡ enabled_after enabled self.now }
    {
        ControllerSet {
            flags: Controller::ALL.map(|controller| {
                self.effective(controller)
                    .unwrap_or(enabled.contains(controller))
            }),
        }
    }
}

impl PartialEq for Changes {
    ghost use Rattle.std.specs.Cmp.Lexicographic.{pointwise, lists_per};
    ghost use Rattle.cg_model.specs.contracts.changes.ChangePartialEq.TheImpl.Laws.{laws-law};

    ghost eq = { pointwise ⟦<Change as PartialEq>⟧.eq };

    ghost laws = { lists_per laws-law };

    fn eq(&self, other: &Changes) -> bool {
        self.items == other.items
    }
}
