//! Setting a limit: a write to a limit file.
ghost use Rattle.std.specs.Prelude.{◌≡◌};
ghost use Rattle.cg_model.specs.Clauses.{first};
ghost use Rattle.cg_model.specs.Bars.{set_bars};

use cg_cgroup::files::{EntryName, Limit, LimitFile};
use cg_cgroup::path::Path;
use cg_cgroup::user::User;
use cg_model::hierarchy::Hierarchy;
use cg_model::outcome::Refusal;

/// The first refusal that a write of a value meets.
pub fn refusal<H: Hierarchy>(
    tree: &H,
    user: &User,
    at: &Path,
    file: LimitFile,
    value: Limit,
) -> Option<Refusal>
    ensures { result ≡ first (set_bars (H.state tree.now) user.now at.now file value) }
{
    let len = at.depth();
    let Some(cgroup) = tree.get(at, len) else {
        return Some(Refusal::NoSuchCgroup { len });
    };
    let Some(held) = cgroup.file(file) else {
        return Some(Refusal::NoSuchFile {
            entry: EntryName::File(file),
        });
    };
    if !user.may_write(&held.entry) {
        return Some(Refusal::NoAccess {
            len,
            entry: EntryName::File(file),
        });
    }
    if !file.accepts(value) {
        return Some(Refusal::BadValue { file });
    }
    None
}
