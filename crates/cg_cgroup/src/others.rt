//! The limit files of one cgroup beyond `LimitFile`, by the controllers that bring them.
ghost use Rattle.std.specs.Prelude.{◌≡◌, cond, length, map, Some, None};
ghost use Rattle.cg_cgroup.specs.Files.{all_controllers, enables};

use crate::controllers::{CONTROLLER_COUNT, ControllerSet};
use crate::files::Controller;
use crate::user::Entry;

/// The limit files beyond `LimitFile`: for each controller, in their order, the owner, the group and the mode of those
/// that it brings; `None` where they don't stand.
#[derive(Clone, Copy, Debug, PartialEq, Eq)]
pub struct OtherFiles {
    pub entries: [Option<Entry>; CONTROLLER_COUNT],
    pub ghost whole: { length entries ≡ length all_controllers },
}

impl OtherFiles {
    ghost use Rattle.std.specs.Prelude.{get_or};
    ghost use Rattle.cg_cgroup.specs.Files.{controller_kind};
    ghost use Rattle.cg_cgroup.specs.Cgroups.{others_by, others_under};

    /// None of them.
    pub fn none() -> OtherFiles
        ensures { result ≡ others_by (λ controller. None) }
    {
        OtherFiles {
            entries: [None; CONTROLLER_COUNT],
        }
    }

    /// Those below a cgroup that enables these controllers, all with the same owner, group and mode.
    pub fn under(enabled: ControllerSet, entry: Entry) -> OtherFiles
        ensures { result ≡ others_under enabled entry }
    {
        OtherFiles {
            entries: standing_entries(enabled, entry),
        }
    }

    /// The owner, the group and the mode of those that a controller brings, where they stand.
    pub fn get(&self, controller: Controller) -> Option<Entry>
        ensures { result ≡ get_or self.now.entries (controller_kind controller).number None }
    {
        self.entries[controller.number()]
    }
}

/// What stands below a cgroup that enables these controllers, all with the same owner, group and mode.
fn standing_entries(enabled: ControllerSet, entry: Entry) -> [Option<Entry>; CONTROLLER_COUNT]
    ensures { result ≡ map (λ controller. cond (enables enabled controller) (Some entry) None) all_controllers }
{
    Controller::ALL.map(|controller| standing(enabled, controller, entry))
}

fn standing(enabled: ControllerSet, controller: Controller, entry: Entry) -> Option<Entry>
    ensures { result ≡ cond (enables enabled controller) (Some entry) None }
{
    if enabled.contains(controller) {
        Some(entry)
    } else {
        None
    }
}
