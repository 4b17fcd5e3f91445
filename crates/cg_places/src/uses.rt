//! How many children of a cgroup enable each controller.
ghost use Rattle.std.specs.Prelude.{◌≡◌, length};
ghost use Rattle.cg_cgroup.specs.Files.{all_controllers};

use cg_cgroup::controllers::CONTROLLER_COUNT;
use cg_cgroup::files::{Controller, ControllerSet};

/// How many children of a cgroup enable each controller, in the order of controllers.
#[derive(Clone, Copy)]
pub struct Uses {
    pub counts: [u64; CONTROLLER_COUNT],
    pub ghost whole: { length counts ≡ length all_controllers },
}

impl Uses {
    ghost use Rattle.cg_places.specs.Nodes.{no_uses, uses_of, uses_after, uses_then, more_if, less_if};

    /// Those of a cgroup without children.
    pub fn none() -> Uses
        ensures { result ≡ no_uses }
    {
        Uses {
            counts: [0; CONTROLLER_COUNT],
        }
    }

    /// Those of a controller.
    pub fn of(self, controller: Controller) -> u64
        ensures { result ≡ uses_of self controller }
    {
        self.counts[controller as usize]
    }

    /// Once a child that enabled `had` enables `has`.
    pub fn after(self, had: ControllerSet, has: ControllerSet) -> Uses
        ensures { result ≡ uses_after had has self }
    {
        Uses {
            counts: Controller::ALL.map(|controller| self.then(controller, had, has)),
        }
    }

    /// Those of a controller then.
    #[tactic(auto, unfolding(crate::specs::Nodes::uses_then))]
    fn then(self, controller: Controller, had: ControllerSet, has: ControllerSet) -> u64
        ensures { result ≡ uses_then had has self controller }
    {
        let fewer = Uses::less_if(had.contains(controller), self.of(controller));
        Uses::more_if(has.contains(controller), fewer)
    }

    /// One more, if so.
    fn more_if(so: bool, count: u64) -> u64
        ensures { result ≡ more_if so count }
    {
        if so { count.saturating_add(1) } else { count }
    }

    /// One fewer, if so.
    fn less_if(so: bool, count: u64) -> u64
        ensures { result ≡ less_if so count }
    {
        if so { count.saturating_sub(1) } else { count }
    }
}
