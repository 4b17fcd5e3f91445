//! Who asks, and of what.
use cg_cgroup::path::Path;
use cg_cgroup::user::User;
use std::alloc::Global;

/// A user, and the subtree of a tree that they would break.
#[derive(Clone, Copy)]
pub struct Asker<'a, H> {
    pub alloc: Global,
    pub tree: &'a H,
    pub user: &'a User,
    pub subtree: &'a Path,
}
