//! Lists of operations that break a subtree, where no short try does. A list is planned from its last operation back, by what
//! refuses each; nothing of the plan is trusted, since the list is replayed before it is given.
#![tactic(auto)]

mod draft;
mod emptied;
pub mod escape;
mod goal;
mod goals;
mod lifts;
mod loose;
mod places;
mod planner;
mod refuge;
mod replayed;
mod room;
mod rooms;
mod sought;
