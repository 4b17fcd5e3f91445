//! The arguments of a call, as what they name.
ghost use Rattle.std.specs.Prelude.{◌≡◌, ◌≢◌, Ok, Err, MatchResult};
ghost use Rattle.cg_cli.specs.Arguments.{user_read, pid_read, path_read};

use cg_cgroup::path::Path;
use cg_cgroup::process::Pid;
use cg_cgroup::user::User;
use cg_faults::fault::CliFault;
use std::alloc::Global;

/// A user as a call is given him: a uid, and gids of which the first is the primary one.
#[derive(Clone, Copy, Debug, PartialEq, Eq)]
pub struct UserIds<'a> {
    pub uid: u32,
    pub gids: &'a [u32],
}

pub(crate) fn read_user(user: UserIds<'_>) -> Result<User, CliFault>
    ensures { result ≡ user_read user.entry.uid user.entry.gids.now }
{
    if user.uid == 0 {
        return Err(CliFault::Uid);
    }
    User::with_groups(user.uid, user.gids).ok_or(CliFault::Gids)
}

pub(crate) fn read_pid(number: u32) -> Result<Pid, CliFault>
    ensures { result ≡ pid_read number }
{
    Pid::new(number).ok_or(CliFault::Pid)
}

pub(crate) fn read_path(alloc: Global, text: &str) -> Result<Path, CliFault>
    ensures { MatchResult result
        (λ path. path_read text.now ≡ Ok path)
        (λ fault. fault ≢ CliFault.NoMemory → path_read text.now ≡ Err fault) }
{
    Ok(Path::parse(alloc, text)?)
}
