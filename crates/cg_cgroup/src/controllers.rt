//! Sets of controllers.
ghost use Rattle.std.specs.Prelude.{◌≡◌, length};
ghost use Rattle.cg_cgroup.specs.Kinds.{all_controllers};

use crate::files::Controller;

/// How many controllers there are.
pub const CONTROLLER_COUNT: usize = 9;

/// A set of controllers: a flag for each, in their order.
#[derive(Clone, Copy, Debug, PartialEq, Eq)]
pub struct ControllerSet {
    pub flags: [bool; CONTROLLER_COUNT],
    pub ghost whole: { length flags ≡ length all_controllers },
}

impl ControllerSet {
    ghost use Rattle.cg_cgroup.specs.Files.{enables, with_controller, no_controllers, enables_nothing, is_within};

    /// The set of no controller.
    pub fn none() -> ControllerSet
        ensures { result ≡ no_controllers }
    {
        ControllerSet {
            flags: [false; CONTROLLER_COUNT],
        }
    }

    /// Whether a controller is in the set.
    pub fn contains(self, controller: Controller) -> bool
        ensures { result ≡ enables self controller }
    {
        self.flags[controller as usize]
    }

    /// Whether no controller is in the set.
    pub fn is_empty(self) -> bool
        ensures { result ≡ enables_nothing self }
    {
        Controller::ALL
            .iter()
            .all(|controller| !self.contains(*controller))
    }

    /// The set with a controller in it, or without it.
    pub fn with(self, controller: Controller, on: bool) -> ControllerSet
        ensures { result ≡ with_controller self controller on }
    {
        let mut flags = self.flags;
        flags[controller.number()] = on;
        ControllerSet { flags }
    }

    /// Whether each controller of the set is in the other one.
    pub fn is_within(self, other: &ControllerSet) -> bool
        ensures { result ≡ is_within self other.now }
    {
        Controller::ALL.iter().all(|controller| !self.contains(*controller)
            || other.contains(*controller))
    }
}
