//! Everybody, but for who is left out.
ghost use Rattle.std.specs.Prelude.{◌≡◌, ◌&&◌, nat_eq};
ghost use Rattle.std.specs.List.{list_any};
ghost use Rattle.machine_everybody.specs.Everybody.{is_left_out, is_listed, is_other, has_listed, has_members, lets_anybody_in};
ghost use Rattle.cg_everybody.specs.Everybody.{everybody_of, opens_to};

use cg_cgroup::user::Entry;
use cg_model::mend::Class;

/// Everybody but root and some further uids. Of a group that is listed nobody is a member but who stands there; where it is listed again,
/// whoever stands in one of its lists.
#[derive(Clone, Copy)]
pub struct Asked<'a> {
    pub but: &'a [u32],
    pub groups: &'a [Members<'a>],
}

/// A group by its gid, and the uids of whoever may be a member.
#[derive(Clone, Copy)]
pub struct Members<'a> {
    pub gid: u32,
    pub uids: &'a [u32],
}

impl Asked<'_> {
    /// Whether an entry lets somebody in who is asked about.
    pub(crate) fn lets_anybody_in(&self, entry: &Entry) -> bool
        ensures { result ≡ lets_anybody_in (everybody_of self.now) entry.now }
    {
        self.opens_to(entry, Class::Owner)
            || self.opens_to(entry, Class::Group)
            || self.opens_to(entry, Class::Others)
    }

    /// Whether an entry lets a class of users in, of those who are asked about. Its owner sets its mode first.
    pub(crate) fn opens_to(&self, entry: &Entry, class: Class) -> bool
        ensures { result ≡ opens_to (everybody_of self.now) entry.now class }
    {
        match class {
            Class::Owner => !self.is_left_out(entry.uid),
            Class::Group => entry.mode & 0o020 == 0o020 && self.has_members(entry),
            Class::Others => entry.mode & 0o002 == 0o002,
        }
    }

    /// Whether somebody who is asked about may be in an entry's group, and isn't its owner.
    fn has_members(&self, entry: &Entry) -> bool
        ensures { result ≡ has_members (everybody_of self.now) entry.now }
    {
        !self.is_listed(entry.gid) || self.has_listed(entry)
    }

    /// Whether nobody of this uid is asked about.
    fn is_left_out(&self, uid: u32) -> bool
        ensures { result ≡ is_left_out (everybody_of self.now) uid }
    {
        uid == 0 || self.but.contains(&uid)
    }

    fn is_listed(&self, gid: u32) -> bool
        ensures { result ≡ is_listed (everybody_of self.now) gid }
    {
        any_of(self.groups, gid)
    }

    /// Whether a list of an entry's group has somebody who is asked about and isn't its owner.
    fn has_listed(&self, entry: &Entry) -> bool
        ensures { result ≡ has_listed (everybody_of self.now) entry.now.gid (is_other (everybody_of self.now) entry.now) }
    {
        self.any_with_other(entry)
    }

    fn any_with_other(&self, entry: &Entry) -> bool
        ensures { result ≡ list_any
            (λ group. nat_eq group.gid entry.now.gid && list_any (is_other (everybody_of self.now) entry.now) group.uids.now)
            self.now.groups.now }
    {
        self.groups.iter().any(|group| group.gid == entry.gid && self.has_other(group, entry))
    }

    /// Whether somebody of a group's list is asked about and isn't an entry's owner.
    fn has_other(&self, group: &Members<'_>, entry: &Entry) -> bool
        ensures { result ≡ list_any (is_other (everybody_of self.now) entry.now) group.now.uids.now }
    {
        group.uids.iter().any(|uid| self.is_other(*uid, entry))
    }

    fn is_other(&self, uid: u32, entry: &Entry) -> bool
        ensures { result ≡ is_other (everybody_of self.now) entry.now uid }
    {
        !self.is_left_out(uid) && uid != entry.uid
    }
}

/// Whether one of some lists is a group's.
fn any_of(groups: &[Members<'_>], gid: u32) -> bool
    ensures { result ≡ list_any (λ group. nat_eq group.gid gid) groups.now }
{
    groups.iter().any(|group| group.gid == gid)
}
