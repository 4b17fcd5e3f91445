//! Processes and their numbers.
ghost use Rattle.std.specs.Prelude.{◌≡◌, ◌≤◌};
ghost use Rattle.cg_cgroup.specs.Numbers.{pid_of};

use crate::path::Path;
use std::marker::Model;

/// The number of a process, 1 to 4194303.
#[derive(Clone, Copy, Debug, PartialEq, Eq, PartialOrd, Ord)]
pub struct Pid {
    number: u32,
}

impl Model for Pid {
    ghost use Rattle.std.specs.Prelude.{ℕ, ◌≤◌};

    ghost Value = { ℕ };

    ghost view = { λ p. p.number };

    ghost invariant = { λ p. (1 ≤ p.number) × (p.number ≤ 4194303) };

    ghost inverse = { λ n. record { number = n } };
}

impl Pid {
    /// The PID of this number; `None` outside 1 to 4194303.
    pub fn new(number: u32) -> Option<Pid>
        ensures { result ≡ pid_of number }
    {
        if number == 0 || number > 4194303 {
            return None;
        }
        Some(Pid { number })
    }

    /// The number.
    pub fn get(self) -> u32
        ensures value { result ≡ self }
        ensures low { 1 ≤ result }
        ensures high { result ≤ 4194303 }
    {
        self.number
    }
}

/// A live process: its owner and the cgroup that it is in.
#[derive(Debug, PartialEq, Eq, Drop)]
pub struct Process {
    pub uid: u32,
    pub place: Path,
}
