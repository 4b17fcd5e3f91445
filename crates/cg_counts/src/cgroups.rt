//! Cgroups by path, with kept counts.
ghost use Rattle.std.specs.Prelude.{◌≡◌, ◌≤◌, true, false, length, take, filter, option_copied, [], Some, IfOk, OnOk, OnErr, MatchOption};
ghost use Rattle.std.specs.Option.{option_map};
ghost use Rattle.std.specs.FinMap as map;
ghost use Rattle.cg_cgroup.specs.Paths.{parent, is_root};
ghost use Rattle.cg_model.specs.States.{row_at, count_below, has_child, child_enables, depth_below};
ghost use Rattle.cg_model.specs.WellFormed.{has_row};
ghost use Rattle.cg_model.specs.Receiving.{receives};
ghost use Rattle.cg_model.specs.NearestFull.{NoneIsFull, IsNearestFull};
ghost use Rattle.cg_counts.specs.Kept.{AreFittedBelow, tree_of, new_held, with_row_of, enabling_held, change_held, change_each_held, tallied_held};

use cg_cgroup::cgroup::Cgroup;
use cg_cgroup::files::{Controller, ControllerSet};
use cg_cgroup::memory::NoMemory;
use cg_cgroup::path::Path;
use cg_cgroup::user::User;
use cg_model::receiving::receives;
use cg_places::links::{Link, Tally, climb, leave, place_for, put_limits, put_link, tally_up};
use cg_places::nodes::{Nodes, count_live, differing, enable, recount};
use cg_places::path_index::PathIndex;
use std::alloc::Global;
use std::marker::Model;

/// Below how few cgroups no children share one: what they share takes as much memory as one of them.
const FEW: u64 = 16;

/// Cgroups by path, each with the number of its live processes.
///
/// Each cgroup has a place, which it keeps, and knows its parent's. The place of one that is removed is another's later.
#[derive(Drop)]
pub struct Cgroups {
    places: PathIndex,
    links: Vec<Link>,
    nodes: Nodes,
    /// Places that were left; each is looked at before it is believed.
    vacant: Vec<usize>,
}

impl Model for Cgroups {
    ghost use Rattle.std.specs.Coded.{codes};
    ghost use Rattle.std.specs.FinMap as map;
    ghost use Rattle.cg_cgroup.specs.Paths.{path_cmp};
    ghost use Rattle.cg_places.specs.Values.{values_of};
    ghost use Rattle.cg_counts.specs.Kept.{Held, held_of, AreKept};

    ghost Value = { map.FinMap path_cmp Held };

    ghost coded = { Prim.hlevel (codes, map.code) };

    ghost view = { λ t. values_of held_of t.places t.nodes };

    ghost invariant = { λ t. AreKept t.places t.links.items t.nodes };
}

impl Cgroups {
    /// A root alone. Fails where memory is wanted.
    pub fn new(alloc: Global, root: Cgroup) -> Result<Cgroups, NoMemory>
        ensures { IfOk result (λ tree. tree ≡ map.insert map.empty [] (new_held root)) }
    {
        let mut places = PathIndex::new(alloc);
        places.insert(alloc, &Path::root(alloc), 0)?;
        let mut links = Vec::new(alloc);
        links.push(Link::new(0, &root))?;
        let vacant = Vec::new(alloc);
        let nodes = Nodes::new(alloc, root)?;
        Ok(Cgroups {
            places,
            links,
            nodes,
            vacant,
        })
    }

    /// The cgroup of the first `len` names of `path`.
    pub fn get(&self, path: &Path, len: usize) -> Option<&Cgroup>
        requires { len ≤ length path.now }
        ensures { option_copied result ≡ row_at (tree_of self.now) (take len path.now) }
    {
        match self.places.get(path, len) {
            Some(place) => Some(self.nodes.cgroup(place)),
            None => None,
        }
    }

    /// The cgroup of a path that is there.
    #[tactic(auto, using(crate::proofs::Read::is_placed))]
    pub fn cgroup(&self, path: &Path) -> &Cgroup
        requires { has_row (tree_of self.now) path.now ≡ true }
        ensures { Some result.now ≡ row_at (tree_of self.now) path.now }
    {
        self.nodes.cgroup(self.places.whole(path))
    }

    /// How many live processes are counted at a cgroup.
    #[tactic(auto, using(crate::proofs::Read::is_placed, crate::proofs::Read::place_within))]
    pub fn live(&self, path: &Path, len: usize) -> u64
        requires within { len ≤ length path.now }
        requires there { has_row (tree_of self.now) (take len path.now) ≡ true }
        ensures { option_map (λ held. held.live) (map.get self.now (take len path.now)) ≡ Some result }
    {
        let place = self.places.number(path, len);
        self.nodes.live(place)
    }

    /// Whether a child of a cgroup enables a controller.
    #[tactic(auto, using(crate::proofs::Read::is_placed, crate::proofs::Read::place_within))]
    pub fn child_enables(&self, path: &Path, len: usize, controller: Controller) -> bool
        requires within { len ≤ length path.now }
        requires there { has_row (tree_of self.now) (take len path.now) ≡ true }
        ensures { result ≡ child_enables (tree_of self.now) (take len path.now) controller }
    {
        let place = self.places.number(path, len);
        self.nodes.uses(place).of(controller) > 0
    }

    /// How many cgroups lie below a cgroup, at any depth.
    #[tactic(auto, using(crate::proofs::Read::is_placed))]
    pub fn count_below(&self, path: &Path, len: usize) -> u64
        requires within { len ≤ length path.now }
        requires there { has_row (tree_of self.now) (take len path.now) ≡ true }
        ensures { result ≡ count_below (tree_of self.now) (take len path.now) }
    {
        let place = self.places.number(path, len);
        self.links[place].below
    }

    /// The nearest of a cgroup and those above it whose limits bar a new child of that cgroup, by its number of names.
    #[tactic(auto, using(crate::proofs::Read::is_placed))]
    pub fn nearest_full(&self, path: &Path, len: usize) -> Option<usize>
        requires within { len ≤ length path.now }
        requires there { has_row (tree_of self.now) (take len path.now) ≡ true }
        ensures { MatchOption
            result
            (NoneIsFull (tree_of self.now) path.now len)
            (IsNearestFull (tree_of self.now) path.now len) }
    {
        let place = self.places.number(path, len);
        climb(&self.links, place, len)
    }

    /// Puts a cgroup in the place of one that enables the same.
    pub fn set(&mut self, path: &Path, cgroup: Cgroup)
        requires { option_map (λ held. held.cgroup.enabled) (map.get self.old path.now) ≡ Some cgroup.enabled }
        ensures { self.new ≡ change_held self.old path.now (with_row_of cgroup) }
    {
        let place = self.places.whole(path);
        self.nodes.put(place, cgroup);
        put_limits(&mut self.links, place, &cgroup);
    }

    /// Counts one more live process at a cgroup, or one fewer.
    #[tactic(auto, using(crate::proofs::Read::is_placed))]
    pub fn count_live(&mut self, path: &Path, tally: Tally)
        requires { has_row (tree_of self.old) path.now ≡ true }
        ensures { self.new ≡ change_held self.old path.now (tallied_held tally) }
    {
        let place = self.places.whole(path);
        count_live(&mut self.nodes, place, tally);
    }

    /// Sets what a cgroup enables for its children, and makes and removes their limit files.
    #[tactic(auto, using(crate::proofs::Read::is_placed))]
    pub fn enable(&mut self, path: &Path, enabled: ControllerSet, user: &User)
        requires there { has_row (tree_of self.old) path.now ≡ true }
        requires fitted { AreFittedBelow (tree_of self.old) path.now }
        ensures { self.new ≡ change_each_held (enabling_held path.now enabled user.now) self.old }
    {
        let place = self.places.whole(path);
        // What `size` says bounds the counts.
        let _size = self.places.size();
        let link = self.links[place];
        let had = self.nodes.cgroup(place).enabled;
        enable(&mut self.nodes, place, link.above, enabled);
        if link.below > 0 {
            let fresh = Cgroup::made_by(user, enabled);
            let changed = differing(had, enabled);
            self.nodes
                .refit_children(&self.links, place, changed, &fresh);
        }
    }

    /// Adds a cgroup below one that is there.
    pub fn add(&mut self, alloc: Global, path: &Path, cgroup: Cgroup) -> Result<(), NoMemory>
        requires absent { has_row (tree_of self.old) path.now ≡ false }
        requires not_root { is_root path.now ≡ false }
        requires parent { has_row (tree_of self.old) (parent path.now) ≡ true }
        ensures ok { OnOk result (self.new ≡ map.insert self.old path.now (new_held cgroup)) }
        ensures err { OnErr result (self.new ≡ self.old) }
    {
        let above = self.places.number(path, path.parent_len());
        // What `size` says bounds the counts.
        let _size = self.places.size();
        let shares = self.links[above].below >= FEW;
        let place = place_for(&self.links, self.vacant.pop());
        self.links.reserve(1)?;
        self.nodes.put_new(place, above, cgroup, shares)?;
        put_link(&mut self.links, place, Link::new(above, &cgroup));
        self.places.insert(alloc, path, place)?;
        tally_up(&mut self.links, above, path.depth(), Tally::More);
        recount(
            &mut self.nodes,
            above,
            ControllerSet::none(),
            cgroup.enabled,
        );
        Ok(())
    }

    /// Removes a cgroup that isn't the root and has no child.
    #[tactic(auto, using(crate::proofs::Read::is_placed))]
    pub fn remove(&mut self, path: &Path)
        requires there { has_row (tree_of self.old) path.now ≡ true }
        requires not_root { is_root path.now ≡ false }
        requires no_child { has_child (tree_of self.old) path.now ≡ false }
        ensures { self.new ≡ map.remove self.old path.now }
    {
        let place = self.places.whole(path);
        let above = self.links[place].above;
        let enabled = self.nodes.cgroup(place).enabled;
        self.places.remove(path);
        tally_up(&mut self.links, above, path.depth(), Tally::Fewer);
        leave(&mut self.links, place);
        recount(&mut self.nodes, above, enabled, ControllerSet::none());
        // Where memory is wanted, nobody has the place again.
        let _ = self.vacant.push(place);
    }

    /// How many levels the deepest cgroup below a cgroup lies below it; 0 where there is none.
    pub fn depth_below(&self, path: &Path, len: usize) -> u64
        requires within { len ≤ length path.now }
        ensures { result ≡ depth_below (tree_of self.now) (take len path.now) }
    {
        self.places.depth_below(path, len)
    }

    /// Every path, in order. Fails where memory is wanted.
    pub fn paths(&self, alloc: Global) -> Result<Vec<Path>, NoMemory>
        ensures { IfOk result (λ paths. paths.items ≡ map.keys self.now) }
    {
        self.places.paths(alloc)
    }

    /// Whether a process may come to a path, once it may pass.
    #[tactic(auto, using(cg_model::proofs::Prefixes::take_whole))]
    fn receives(&self, user: &User, path: &Path) -> bool
        ensures { result ≡ receives (tree_of self.now) user.now path.now }
    {
        match self.get(path, path.depth()) {
            Some(cgroup) => receives(user, path, cgroup),
            None => false,
        }
    }

    /// Those of some paths to which a process may come, once it may pass. Fails where memory is wanted.
    fn receiving(&self, alloc: Global, user: &User, paths: &[Path]) -> Result<Vec<Path>, NoMemory>
        ensures { IfOk result (λ found. found.items ≡ filter (receives (tree_of self.now) user.now) paths.now) }
    {
        let mut found = Vec::new(alloc);
        for path in paths {
            if self.receives(user, path) {
                found.push(path.try_clone(alloc)?)?;
            }
        }
        Ok(found)
    }

    /// The paths of those cgroups to which a process may come, once it may pass, in order. Fails where memory is wanted.
    pub fn receivers(&self, alloc: Global, user: &User) -> Result<Vec<Path>, NoMemory>
        ensures { IfOk result (λ paths. paths.items ≡ filter (receives (tree_of self.now) user.now) (map.keys self.now)) }
    {
        let paths = self.paths(alloc)?;
        self.receiving(alloc, user, &paths)
    }

    /// Equal cgroups. Fails where memory is wanted.
    pub fn try_clone(&self, alloc: Global) -> Result<Self, NoMemory>
        ensures { IfOk result (λ copy. copy ≡ self.now) }
    {
        Ok(Cgroups {
            places: self.places.try_clone()?,
            links: Vec::from_slice(alloc, &self.links)?,
            nodes: self.nodes.try_clone(alloc)?,
            vacant: Vec::from_slice(alloc, &self.vacant)?,
        })
    }
}
