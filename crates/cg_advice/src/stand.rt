//! The entries on which guards of a subtree stand, and by what those get in who were met there.
ghost use Rattle.std.specs.Prelude.{◌≡◌, ◌++◌, [], ◌∷◌, cond, map, OnOk};
ghost use Rattle.cg_advice.specs.Ways.{entering};
ghost use Rattle.cg_advice.specs.Thinned.{spot_of, entered, is_new, joined, AreMet};

use crate::pair::{Entrant, Pair, Stand};
use cg_cgroup::memory::NoMemory;
use cg_cgroup::user::User;

impl Stand<'_> {
    /// Whether a user gets in by something by which none of those did.
    pub fn is_new(&self, user: &User) -> bool
        ensures { result ≡ is_new self.now user.now }
    {
        !self.ways.tells(user, &self.at.entry) && user.reaches(&self.at.entry)
    }
}

/// One more user at each entry of a subtree in turn: who gets in by something new is kept, behind some.
pub fn enter_all<'a>(
    found: &mut Vec<Entrant<'a>>,
    stands: &mut [Stand<'a>],
    user: &'a User,
) -> Result<(), NoMemory>
    ensures { OnOk result (AreMet user.now (map entering found.old.items) (map entering found.new.items) stands.old stands.new (map spot_of stands.old)) }
{
    for place in 0..stands.len() {
        let stand = &mut stands[place];
        enter(found, stand, user)?;
    }
    Ok(())
}

/// One more user at an entry.
fn enter<'a>(
    found: &mut Vec<Entrant<'a>>,
    stand: &mut Stand<'a>,
    user: &'a User,
) -> Result<(), NoMemory>
    ensures found { OnOk result (map entering found.new.items
        ≡ map entering found.old.items ++ cond (is_new stand.old user.now) (entered user.now (spot_of stand.old) ∷ []) []) }
    ensures spot { OnOk result (spot_of stand.new ≡ spot_of stand.old) }
    ensures ways { OnOk result (stand.new.ways ≡ joined stand.old user.now) }
{
    if !stand.is_new(user) {
        return Ok(());
    }
    let pair = Pair {
        user,
        subtree: stand.subtree,
    };
    found.push(Entrant { pair, at: stand.at })?;
    stand.ways = stand.ways.with(user, &stand.at.entry);
    Ok(())
}
