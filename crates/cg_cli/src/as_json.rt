//! Reports as JSON.
pub mod advise;
pub mod advise_pairs;
pub mod advise_settle;
pub mod audit;
pub mod audit_all;
pub mod audit_pairs;
pub mod audit_settle;
pub mod check;
pub mod everybody;
pub mod explain;
pub mod may;
pub mod replay;
