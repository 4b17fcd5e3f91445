//! The users of calls.
use cg_cli::arguments::UserIds;

/// User 1000 without groups.
pub const USER: UserIds<'static> = UserIds {
    uid: 1000,
    gids: &[],
};

/// As many groups as a user may have.
pub const MOST_GROUPS: &[u32] = &[7; 32];

/// One more.
pub const MANY_GROUPS: &[u32] = &[7; 33];

pub fn user(uid: u32, gids: &[u32]) -> UserIds<'_> {
    UserIds { uid, gids }
}
