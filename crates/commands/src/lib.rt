//! The program: its words, files and streams in, a status out.
#![tactic(auto)]

mod both;
mod carried;
pub mod fault;
mod lines;
mod on_pairs;
mod on_subtrees;
mod on_tree;
mod pairs;
pub mod program;
pub mod run;
mod subtrees;
mod texts;
mod users;
pub mod waiting;
