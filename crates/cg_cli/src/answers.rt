//! What is known of a subtree against a user where no guard and no try tells: by the second row of guards, and by a plan.
pub mod audited;
pub mod laws;
pub mod listing;
pub mod settle;
