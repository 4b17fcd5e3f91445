//! The changes that mend a guard that fails.
ghost use Rattle.std.specs.Prelude.{◌≡◌, ◌≤◌, option_to_list, IfSome};
ghost use Rattle.cg_model.specs.Mended.{without_bits};
ghost use Rattle.cg_advice.specs.AdviceLines.{class_name, len_of};
ghost use Rattle.cg_advice.specs.WayLines.{chown_by, chmod_by};

use crate::ways::Ways;
use cg_cgroup::user::Mode;
use cg_model::guard::GuardedEntry;
use cg_model::mend::{Class, Mend};

/// The word of a report.
pub fn class_name(class: Class) -> &'static str
    ensures { result.now ≡ class_name class }
{
    match class {
        Class::Owner => "owner",
        Class::Group => "group",
        Class::Others => "others",
    }
}

/// Root in the owner's place, where one of the users owns the entry; its group stays.
pub fn chown_of(ways: Ways, at: &GuardedEntry) -> Option<Mend>
    ensures mend { option_to_list result ≡ chown_by ways at.now }
    ensures level { IfSome result (λ mend. len_of mend ≡ at.now.len) }
{
    if !ways.owner {
        return None;
    }
    Some(Mend::Chown {
        len: at.len,
        name: at.name,
        uid: 0,
        gid: at.entry.gid,
    })
}

/// The entry's mode without the bits by which the users write once none of them is the owner, where it has one of them.
pub fn chmod_of(ways: Ways, at: &GuardedEntry) -> Option<Mend>
    requires { at.now.entry.mode ≤ 511 }
    ensures mend { option_to_list result ≡ chmod_by ways at.now }
    ensures level { IfSome result (λ mend. len_of mend ≡ at.now.len) }
{
    let mode = shut_mode(ways, at.entry.mode);
    if mode.get() == at.entry.mode {
        return None;
    }
    Some(Mend::Chmod {
        len: at.len,
        name: at.name,
        mode,
    })
}

/// A mode without the bits by which users write who aren't the owner.
fn shut_mode(ways: Ways, mode: u16) -> Mode
    requires { mode ≤ 511 }
    ensures { result ≡ without_bits ways.inside ways.outside mode }
{
    let left = if ways.inside { mode & 0o757 } else { mode };
    let shut = if ways.outside { left & 0o775 } else { left };
    let Some(mode) = Mode::new(shut) else {
        unreachable!()
    };
    mode
}
