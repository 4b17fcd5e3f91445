//! Places to which a process may come, by how they come to take one.
use crate::planner::Planner;
use crate::rooms::{Room, Rooms};
use crate::sought::{Sought, Way};
use cg_cgroup::cgroup::Cgroup;
use cg_cgroup::memory::NoMemory;
use cg_cgroup::path::Path;
use cg_model::hierarchy::Hierarchy;
use cg_model::receiving::may_hold;
use std::alloc::Global;

/// How a place comes to take a process.
#[derive(Clone, Copy, Debug, PartialEq, Eq)]
enum Kind {
    /// It takes processes as it is.
    Open,
    /// It is made.
    New,
    /// Its controllers go off.
    Enabling,
    /// It is made once there is room.
    Full,
}

/// When a place is tried among others: those that take one move less first, and of these by their kinds.
fn rank(way: Way, kind: Kind) -> usize {
    match (way, kind) {
        (Way::Straight, Kind::Open) => 0,
        (Way::Straight, Kind::New) => 1,
        (Way::Straight, Kind::Enabling) => 2,
        (Way::Straight, Kind::Full) => 3,
        (Way::Around, Kind::Open) => 4,
        (Way::Around, Kind::New) => 5,
        (Way::Around, Kind::Enabling) => 6,
        (Way::Around, Kind::Full) => 7,
    }
}

const RANKS: usize = 8;

/// Places that were found, by their ranks.
#[derive(Drop)]
struct Found {
    ranks: Vec<Vec<Path>>,
    /// How many of a rank are kept.
    most: usize,
}

impl Found {
    fn new(alloc: Global, most: usize) -> Result<Found, NoMemory> {
        let mut ranks = Vec::new(alloc);
        for _ in 0..RANKS {
            ranks.push(Vec::new(alloc))?;
        }
        Ok(Found { ranks, most })
    }

    /// Whether another place of a rank is kept.
    fn takes(&self, rank: usize) -> bool {
        match self.ranks.as_slice().get(rank) {
            Some(paths) => paths.len() < self.most,
            None => false,
        }
    }

    fn add(&mut self, rank: usize, path: Path) -> Result<(), NoMemory> {
        if let Some(paths) = self.ranks.get_mut(rank) {
            paths.push(path)?;
        }
        Ok(())
    }

    /// All of them, in the order in which they are tried.
    fn in_order(self, alloc: Global) -> Result<Vec<Path>, NoMemory> {
        let mut places = Vec::new(alloc);
        for paths in self.ranks {
            let mut paths = paths;
            places.append(&mut paths)?;
        }
        Ok(places)
    }
}

impl<'a, H: Hierarchy> Planner<'a, H> {
    /// The places that are sought in a tree, at most so many of each rank, in the order in which they are tried. Only those are
    /// counted that may come to take a process: controllers of theirs may go off, and limits be raised or room be made.
    pub fn places(
        &self,
        tree: &H,
        sought: &Sought<'_>,
        most: usize,
    ) -> Result<Vec<Path>, NoMemory> {
        let mut found = Found::new(self.alloc, most)?;
        let mut rooms = Rooms::new(self.alloc);
        let loose = self.loose()?;
        for (at, path) in self.paths.iter().enumerate() {
            if let Some(cgroup) = tree.get(path, path.depth()) {
                let removable = loose.removable_below(at);
                let room = rooms.next(tree, self.user, path, cgroup, removable)?;
                let kind = self.kind(cgroup, path, loose.opens_below(at));
                self.add_place(tree, sought, kind, path, &mut found)?;
                let kind = self.child_kind(cgroup, room);
                self.add_place(tree, sought, kind, path, &mut found)?;
            }
        }
        found.in_order(self.alloc)
    }

    /// How a cgroup comes to take a process, if it may.
    fn kind(&self, cgroup: &Cgroup, path: &Path, opens_below: bool) -> Option<Kind> {
        if !self.user.reaches(&cgroup.procs) {
            return None;
        }
        if may_hold(cgroup, path) {
            return Some(Kind::Open);
        }
        if opens_below && self.user.reaches(&cgroup.subtree_control) {
            Some(Kind::Enabling)
        } else {
            None
        }
    }

    /// How a new child of a cgroup comes to be, if it may.
    fn child_kind(&self, cgroup: &Cgroup, room: Room) -> Option<Kind> {
        if !self.user.reaches(&cgroup.dir) {
            return None;
        }
        match room {
            Room::Free => Some(Kind::New),
            Room::Made => Some(Kind::Full),
            Room::Barred => None,
        }
    }

    /// Adds the place of a kind at a cgroup, if it is sought and wanted.
    fn add_place(
        &self,
        tree: &H,
        sought: &Sought<'_>,
        kind: Option<Kind>,
        path: &Path,
        found: &mut Found,
    ) -> Result<(), NoMemory> {
        let Some(kind) = kind else {
            return Ok(());
        };
        let is_new = kind == Kind::New || kind == Kind::Full;
        let Some(way) = sought.way(self, tree, path, is_new) else {
            return Ok(());
        };
        let rank = rank(way, kind);
        if !found.takes(rank) {
            return Ok(());
        }
        if let Some(place) = self.place(tree, path, is_new)? {
            if !sought.avoids(&place) {
                found.add(rank, place)?;
            }
        }
        Ok(())
    }

    /// A cgroup itself, or a new child of it.
    fn place(&self, tree: &H, path: &Path, is_new: bool) -> Result<Option<Path>, NoMemory> {
        if is_new {
            self.new_child(tree, path)
        } else {
            Ok(Some(path.try_clone(self.alloc)?))
        }
    }
}
