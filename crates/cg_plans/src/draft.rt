//! A plan that is carried out on a copy of the tree while it is made.
use crate::goal::Goal;
use crate::lifts::lifts;
use crate::planner::Planner;
use crate::sought::{Goer, Sought};
use cg_cgroup::memory::NoMemory;
use cg_cgroup::path::Path;
use cg_cgroup::process::Pid;
use cg_model::hierarchy::Hierarchy;
use cg_model::operation::Op;
use cg_model::outcome::{Outcome, Refusal};
use cg_ops::apply;

/// How many times a plan goes over all cgroups and processes.
const MOST_SCANS: usize = 64;

/// What was carried out so far, and the tree as it is behind that.
#[derive(Drop)]
pub struct Draft<'a, H: Hierarchy> {
    pub planner: &'a Planner<'a, H>,
    pub tree: H,
    operations: Vec<Op>,
    /// What is to be carried out, the last one first. Those that were refused wait for what lies behind them.
    goals: Vec<Goal>,
    given_up: Vec<Op>,
    /// A process that isn't to end.
    spared: Option<Pid>,
    /// Where processes were put last that had to go.
    pub refuge: Option<Path>,
    scans: usize,
}

impl<'a, H: Hierarchy + Drop> Draft<'a, H> {
    pub fn new(planner: &'a Planner<'a, H>) -> Result<Draft<'a, H>, NoMemory> {
        Ok(Draft {
            planner,
            tree: planner.tree.try_clone(planner.alloc)?,
            operations: Vec::new(planner.alloc),
            goals: Vec::new(planner.alloc),
            given_up: Vec::new(planner.alloc),
            spared: None,
            refuge: None,
            scans: MOST_SCANS,
        })
    }

    /// Carries out an operation, and before it what lifts the refusals that it meets. Whether it was carried out.
    pub fn reach(&mut self, op: Op) -> Result<bool, NoMemory> {
        if let Op::Move { pid, .. } = &op {
            self.spared = Some(*pid);
        }
        let alloc = self.planner.alloc;
        self.goals.push(Goal::new(op))?;
        for _ in 0..65536 {
            let Some(goal) = self.goals.pop() else {
                return Ok(false);
            };
            match apply(alloc, &mut self.tree, self.planner.user, &goal.op)? {
                Outcome::Done => {
                    self.operations.push(goal.op)?;
                    if self.goals.is_empty() {
                        return Ok(true);
                    }
                }
                Outcome::Refused(refusal) => self.lift(goal, refusal)?,
            }
        }
        Ok(false)
    }

    /// Adds a goal again with what lifts its refusal before it; it is given up where nothing does.
    fn lift(&mut self, mut goal: Goal, refusal: Refusal) -> Result<(), NoMemory> {
        if is_gone(&goal.op, &refusal) {
            return Ok(());
        }
        if !goal.refuse(self.operations.len()) {
            return self.give_up(goal.op);
        }
        let mut before = lifts(self, &goal, &refusal)?;
        if before.is_empty() || self.bars_some(before.as_slice()) {
            return self.give_up(goal.op);
        }
        self.goals.push(goal)?;
        before.reverse();
        self.goals.append(&mut before)?;
        Ok(())
    }

    /// Gives an operation up, and with it what else would have lifted the same refusal.
    fn give_up(&mut self, op: Op) -> Result<(), NoMemory> {
        self.given_up.push(op)?;
        let mut kept = 0;
        for (at, goal) in self.goals.iter().enumerate() {
            if goal.is_underway() {
                kept = at.saturating_add(1);
            }
        }
        self.goals.truncate(kept);
        Ok(())
    }

    /// Whether an operation was given up, or waits for what lifts its refusal.
    pub fn is_barred(&self, op: &Op) -> bool {
        self.given_up.contains(op) || self.is_underway(op)
    }

    /// Whether an operation waits for what lifts its refusal.
    fn is_underway(&self, op: &Op) -> bool {
        for goal in &self.goals {
            if goal.is_underway() && goal.op == *op {
                return true;
            }
        }
        false
    }

    /// Whether some of these are barred.
    pub fn bars_some(&self, goals: &[Goal]) -> bool {
        for goal in goals {
            if self.is_barred(&goal.op) {
                return true;
            }
        }
        false
    }

    /// The best place for a process, where there is one: none to which it was given up to move it, nor one that is made ready.
    pub fn best_place(&mut self, pid: Pid, goer: Goer<'_>) -> Result<Option<Path>, NoMemory> {
        if !self.may_scan() {
            return Ok(None);
        }
        let avoided = self.avoided(pid)?;
        let sought = Sought {
            goer,
            avoided: avoided.as_slice(),
        };
        let places = self.planner.places(&self.tree, &sought, 1)?;
        Ok(places.into_iter().next())
    }

    /// The places that a process isn't moved to.
    pub fn avoided(&self, pid: Pid) -> Result<Vec<Path>, NoMemory> {
        let mut avoided = Vec::new(self.planner.alloc);
        for op in &self.given_up {
            match op {
                Op::Move { pid: other, to } if *other == pid => {
                    avoided.push(to.try_clone(self.planner.alloc)?)?;
                }
                _ => {}
            }
        }
        for goal in &self.goals {
            match &goal.op {
                Op::Move { to, .. } if goal.is_underway() => {
                    avoided.push(to.try_clone(self.planner.alloc)?)?;
                }
                _ => {}
            }
        }
        Ok(avoided)
    }

    /// Whether a process ends where it is in the way.
    pub fn may_end(&self, pid: Pid) -> bool {
        self.planner.is_own(pid) && self.spared != Some(pid)
    }

    /// Whether all cgroups and processes may be gone over once more.
    pub fn may_scan(&mut self) -> bool {
        if self.scans == 0 {
            return false;
        }
        self.scans -= 1;
        true
    }

    /// What was carried out, in order.
    pub fn into_operations(self) -> Vec<Op> {
        self.operations
    }
}

/// Whether an operation was refused since what it is about isn't there any more.
fn is_gone(op: &Op, refusal: &Refusal) -> bool {
    match (op, refusal) {
        (Op::Rmdir { .. } | Op::Control { .. }, Refusal::NoSuchCgroup { .. }) => true,
        _ => false,
    }
}
