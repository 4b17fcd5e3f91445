//! What the theorems speak of: operations, refusals, guards, verdicts, answers, advice; and, in `specs/`, what has to be
//! believed of them. Beside that `Hierarchy`, through which all else sees a tree, and laws of states and of steps.
#![tactic(auto)]

pub mod answer;
pub mod changes;
pub mod fault;
pub mod files;
pub mod guard;
pub mod hierarchy;
pub mod laws;
pub mod limits;
pub mod mend;
pub mod operation;
pub mod operations;
pub mod outcome;
pub mod receiving;
pub mod told;
pub mod verdict;
