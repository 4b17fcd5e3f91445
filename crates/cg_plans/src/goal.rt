//! What is still to be carried out of a plan.
use cg_model::operation::Op;
use cg_model::outcome::Refusal;

/// An operation that is to be carried out.
#[derive(Drop)]
pub struct Goal {
    pub op: Op,
    /// A refusal for which what lifts it is planned already.
    planned: Option<Refusal>,
    /// How many refusals it met since something was carried out, and how many operations were by then.
    refusals: usize,
    carried: usize,
}

/// How many times in a row an operation is refused while nothing is carried out.
const MOST_REFUSALS: usize = 8;

impl Goal {
    pub fn new(op: Op) -> Goal {
        Goal {
            op,
            planned: None,
            refusals: 0,
            carried: 0,
        }
    }

    /// One for which what lifts this refusal is planned already.
    pub fn after(op: Op, refusal: Refusal) -> Goal {
        Goal {
            op,
            planned: Some(refusal),
            refusals: 0,
            carried: 0,
        }
    }

    /// Whether what lifts a refusal is planned already.
    pub fn is_planned(&self, refusal: &Refusal) -> bool {
        match &self.planned {
            Some(planned) => planned == refusal,
            None => false,
        }
    }

    /// Whether what lifts its refusal is being carried out.
    pub fn is_underway(&self) -> bool {
        self.refusals > 0
    }

    /// Keeps that it was refused once so many operations were carried out. Whether it may be tried again.
    pub fn refuse(&mut self, carried: usize) -> bool {
        if carried > self.carried {
            self.refusals = 0;
            self.carried = carried;
        }
        if self.refusals >= MOST_REFUSALS {
            return false;
        }
        self.refusals += 1;
        true
    }
}
