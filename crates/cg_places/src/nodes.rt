//! Cgroups at their places, and what is counted of their children and processes.
ghost use Rattle.std.specs.Prelude.{◌≡◌, true, ◌<◌, length, map, slice_set, [], ◌∷◌, None, IfOk, OnOk, OnErr};
ghost use Rattle.cg_places.specs.Links.{put_at};
ghost use Rattle.cg_places.specs.Nodes.{Refits, RefitsShared, RefitsSlots, HasGrown, IsSharedAt, kin_if, new_node, new_slot, node_at, slot_at, with_cgroup, with_own, with_live, with_uses, tallied_node, recounted, enabled_at, differing, other_from, with_files_from};
ghost use Rattle.cg_cgroup.specs.Files.{all_controllers};
ghost use Rattle.cg_places.specs.Taken.{Takes};

use crate::links::{Link, Tally};
use crate::uses::Uses;
use cg_cgroup::brought::BroughtFiles;
use cg_cgroup::cgroup::Cgroup;
use cg_cgroup::controllers::CONTROLLER_COUNT;
use cg_cgroup::files::{BROUGHT_COUNT, Controller, ControllerSet, LimitFile};
use cg_cgroup::memory::NoMemory;
use cg_cgroup::others::OtherFiles;
use cg_cgroup::user::Entry;
use std::alloc::Global;
use std::marker::Model;

/// What is kept at a place.
#[derive(Clone, Copy)]
pub struct Slot {
    /// The cgroup, where it has one of its own.
    pub cgroup: Cgroup,
    /// How many live processes are at the cgroup itself.
    pub live: u64,
    /// How many of its children enable each controller.
    pub uses: Uses,
    /// Which one it shares, where it shares one.
    pub shared: Option<usize>,
}

impl Slot {
    /// A place with no child and no process.
    fn new(cgroup: Cgroup, shared: Option<usize>) -> Slot
        ensures { result ≡ new_slot cgroup shared }
    {
        Slot {
            cgroup,
            live: 0,
            uses: Uses::none(),
            shared,
        }
    }
}

/// A cgroup that children of one parent share as long as none of them changes by itself.
#[derive(Clone, Copy)]
pub struct Shared {
    /// The place of the parent.
    pub above: usize,
    pub cgroup: Cgroup,
}

/// Cgroups by their places, and what is counted of their children and processes.
///
/// Children that are alike share one cgroup, so that what their parent changes of all changes it once.
#[derive(Drop)]
pub struct Nodes {
    slots: Vec<Slot>,
    shared: Vec<Shared>,
    /// For each place which one its children may share; it is looked at before it is believed.
    hints: Vec<usize>,
}

impl Model for Nodes {
    ghost use Rattle.std.specs.Prelude.{List};
    ghost use Rattle.std.specs.Coded.{codes};
    ghost use Rattle.cg_places.specs.Nodes.{Node, nodes_of, AreShared};

    ghost Value = { List Node };

    ghost coded = { Prim.hlevel codes };

    ghost view = { λ t. nodes_of t.shared.items t.slots.items };

    ghost invariant = { λ t. AreShared t.shared.items t.slots.items };
}

impl Nodes {
    /// A root alone, which shares nothing. Fails where memory is wanted.
    pub fn new(alloc: Global, root: Cgroup) -> Result<Nodes, NoMemory>
        ensures { IfOk result (λ nodes. nodes ≡ new_node root None ∷ []) }
    {
        let mut slots = Vec::new(alloc);
        slots.push(Slot::new(root, None))?;
        let mut hints = Vec::new(alloc);
        hints.push(0)?;
        Ok(Nodes {
            slots,
            shared: Vec::new(alloc),
            hints,
        })
    }

    /// The cgroup at a place.
    pub fn cgroup(&self, at: usize) -> &Cgroup
        requires { at < length self.now }
        ensures { result.now ≡ (node_at self.now at).cgroup }
    {
        let slot = &self.slots[at];
        match slot.shared {
            Some(index) => &self.shared[index].cgroup,
            None => &slot.cgroup,
        }
    }

    /// How many live processes are counted at a place.
    pub fn live(&self, at: usize) -> u64
        requires { at < length self.now }
        ensures { result ≡ (node_at self.now at).live }
    {
        self.slots[at].live
    }

    /// How many children of a place enable each controller.
    pub fn uses(&self, at: usize) -> Uses
        requires { at < length self.now }
        ensures { result ≡ (node_at self.now at).uses }
    {
        self.slots[at].uses
    }

    /// Puts a cgroup in the place of another.
    pub fn put(&mut self, at: usize, cgroup: Cgroup)
        requires { at < length self.old }
        ensures { self.new ≡ slice_set self.old at (with_cgroup cgroup (node_at self.old at)) }
    {
        put_own(&mut self.slots, at, cgroup);
    }

    /// Counts so many live processes at a place.
    fn set_live(&mut self, at: usize, live: u64)
        requires { at < length self.old }
        ensures { self.new ≡ slice_set self.old at (with_live live (node_at self.old at)) }
    {
        put_live(&mut self.slots, at, live);
    }

    /// Counts so many children of a place that enable each controller.
    fn set_uses(&mut self, at: usize, uses: Uses)
        requires { at < length self.old }
        ensures { self.new ≡ slice_set self.old at (with_uses uses (node_at self.old at)) }
    {
        put_uses(&mut self.slots, at, uses);
    }

    /// Puts a new cgroup at a place, or behind the others. It is shared with other children of the place `above` where
    /// `shares` says so. Fails where memory is wanted.
    pub fn put_new(
        &mut self,
        at: usize,
        above: usize,
        cgroup: Cgroup,
        shares: bool,
    ) -> Result<(), NoMemory>
        ensures ok { OnOk result (self.new ≡ put_at self.old at (new_node cgroup (kin_if shares above))) }
        ensures err { OnErr result (self.new ≡ self.old) }
    {
        have_hint(&mut self.hints, at)?;
        if !shares {
            put_slot(&mut self.slots, at, Slot::new(cgroup, None))?;
            return Ok(());
        }
        let hint = hint_at(&self.hints, above);
        let index = share(&mut self.shared, hint, above, &cgroup)?;
        note_hint(&mut self.hints, above, index);
        put_slot(&mut self.slots, at, Slot::new(cgroup, Some(index)))?;
        Ok(())
    }

    /// Gives the cgroups below a place, by their links, the limit files of these controllers as a new one has them.
    pub fn refit_children(
        &mut self,
        links: &[Link],
        at: usize,
        changed: ControllerSet,
        fresh: &Cgroup,
    )
        requires { length self.old ≡ length links.now }
        ensures { Refits links.now at changed fresh.now self.old self.new }
    {
        refit_shared(&mut self.shared, at, changed, fresh);
        refit_slots(links, &mut self.slots, at, changed, fresh);
    }

    /// Equal cgroups. Fails where memory is wanted.
    pub fn try_clone(&self, alloc: Global) -> Result<Self, NoMemory>
        ensures { IfOk result (λ copy. copy ≡ self.now) }
    {
        Ok(Nodes {
            slots: Vec::from_slice(alloc, &self.slots)?,
            shared: Vec::from_slice(alloc, &self.shared)?,
            hints: Vec::from_slice(alloc, &self.hints)?,
        })
    }
}

/// Puts what is kept at a place there, or behind the others. Fails where memory is wanted.
fn put_slot(slots: &mut Vec<Slot>, at: usize, slot: Slot) -> Result<(), NoMemory>
    ensures ok { OnOk result (slots.new.items ≡ put_at slots.old.items at slot) }
    ensures err { OnErr result (slots.new.items ≡ slots.old.items) }
{
    if at < slots.len() {
        slots[at] = slot;
        return Ok(());
    }
    slots.push(slot)?;
    Ok(())
}

/// Sees that a place has a hint. Fails where memory is wanted.
fn have_hint(hints: &mut Vec<usize>, at: usize) -> Result<(), NoMemory> {
    if at >= hints.len() {
        hints.push(0)?;
    }
    Ok(())
}

/// Which one children of a place may share.
fn hint_at(hints: &[usize], at: usize) -> usize {
    if at < hints.len() { hints[at] } else { 0 }
}

fn note_hint(hints: &mut [usize], at: usize, index: usize) {
    if at < hints.len() {
        hints[at] = index;
    }
}

/// The index of such a cgroup among those that are shared: the hint, or that of a new one. Fails where memory is wanted.
fn share(
    shared: &mut Vec<Shared>,
    hint: usize,
    above: usize,
    cgroup: &Cgroup,
) -> Result<usize, NoMemory>
    ensures grows { HasGrown shared.old.items shared.new.items }
    ensures ok { IfOk result (IsSharedAt above cgroup.now shared.new.items) }
{
    if hint < shared.len()
        && shared[hint].above == above
        && are_alike(&shared[hint].cgroup, cgroup)
    {
        return Ok(hint);
    }
    let index = shared.len();
    shared.push(Shared {
        above,
        cgroup: *cgroup,
    })?;
    Ok(index)
}

/// Whether two cgroups are alike in all.
fn are_alike(a: &Cgroup, b: &Cgroup) -> bool
    ensures same { result ≡ true → a.now ≡ b.now }
    ensures found { a.now ≡ b.now → result ≡ true }
{
    a == b
}

fn put_own(slots: &mut [Slot], at: usize, cgroup: Cgroup)
    requires { at < length slots.old }
    ensures { slots.new ≡ slice_set slots.old at (with_own cgroup (slot_at slots.old at)) }
{
    let slot = &mut slots[at];
    slot.cgroup = cgroup;
    slot.shared = None;
}

fn put_live(slots: &mut [Slot], at: usize, live: u64)
    requires { at < length slots.old }
    ensures { slots.new ≡ slice_set slots.old at (record (slot_at slots.old at) { live = live }) }
{
    let slot = &mut slots[at];
    slot.live = live;
}

fn put_uses(slots: &mut [Slot], at: usize, uses: Uses)
    requires { at < length slots.old }
    ensures { slots.new ≡ slice_set slots.old at (record (slot_at slots.old at) { uses = uses }) }
{
    let slot = &mut slots[at];
    slot.uses = uses;
}

/// Counts one more live process at a cgroup, or one fewer.
pub fn count_live(nodes: &mut Nodes, at: usize, tally: Tally)
    requires { at < length nodes.old }
    ensures { nodes.new ≡ slice_set nodes.old at (tallied_node tally (node_at nodes.old at)) }
{
    let live = nodes.live(at);
    nodes.set_live(at, tally.of(live));
}

/// Counts anew at a cgroup a child of which enabled `had` and enables `has`.
pub fn recount(nodes: &mut Nodes, at: usize, had: ControllerSet, has: ControllerSet)
    requires { at < length nodes.old }
    ensures { nodes.new ≡ slice_set nodes.old at (recounted had has (node_at nodes.old at)) }
{
    let uses = nodes.uses(at);
    nodes.set_uses(at, uses.after(had, has));
}

/// Sets what a cgroup enables, and counts it anew at its parent, of which the place is `above`; the root is at its own.
pub fn enable(nodes: &mut Nodes, at: usize, above: usize, enabled: ControllerSet)
    requires own { at < length nodes.old }
    requires parents { above < length nodes.old }
    ensures { nodes.new ≡ enabled_at nodes.old at above enabled }
{
    let mut cgroup = *nodes.cgroup(at);
    let had = cgroup.enabled;
    cgroup.enabled = enabled;
    nodes.put(at, cgroup);
    if above != at {
        recount(nodes, above, had, enabled);
    }
}

/// The controllers that are in one set and not in the other.
pub fn differing(had: ControllerSet, has: ControllerSet) -> ControllerSet
    ensures { result ≡ differing had has }
{
    ControllerSet {
        flags: Controller::ALL.map(|controller| had.contains(controller)
            != has.contains(controller)),
    }
}

/// Gives the files of these controllers as they are elsewhere. What doesn't change isn't written.
#[tactic(auto, using(crate::proofs::Taken::taken_one, crate::proofs::Taken::taken_none))]
fn take_each(files: &mut BroughtFiles, changed: ControllerSet, from: &BroughtFiles)
    ensures { Takes changed from.now files.old files.new }
{
    for place in 0..BROUGHT_COUNT {
        if LimitFile::BROUGHT[place].stands_under(changed) {
            files.set(place, from.get(place));
        }
    }
}

/// Gives a cgroup the limit files of these controllers as another one has them.
fn take_files(cgroup: &mut Cgroup, changed: ControllerSet, from: &Cgroup)
    ensures { cgroup.new ≡ with_files_from changed from.now cgroup.old }
{
    take_each(&mut cgroup.files, changed, &from.files);
    cgroup.others = OtherFiles {
        entries: taken_others(cgroup, changed, from),
    };
}

/// The other files of these controllers as another cgroup has them, and those of the rest as they were.
fn taken_others(
    cgroup: &Cgroup,
    changed: ControllerSet,
    from: &Cgroup,
) -> [Option<Entry>; CONTROLLER_COUNT]
    ensures { result ≡ map (other_from changed from.now cgroup.now) all_controllers }
{
    Controller::ALL.map(|controller| taken_other(cgroup, controller, changed, from))
}

fn taken_other(
    cgroup: &Cgroup,
    controller: Controller,
    changed: ControllerSet,
    from: &Cgroup,
) -> Option<Entry>
    ensures { result ≡ other_from changed from.now cgroup.now controller }
{
    if changed.contains(controller) {
        from.other(controller)
    } else {
        cgroup.other(controller)
    }
}

/// Gives the cgroups that children of a place share the limit files of these controllers as a new one has them.
fn refit_shared(shared: &mut [Shared], at: usize, changed: ControllerSet, fresh: &Cgroup)
    ensures { RefitsShared at changed fresh.now shared.old shared.new }
{
    for i in 0..shared.len() {
        if shared[i].above == at {
            let row = &mut shared[i];
            take_files(&mut row.cgroup, changed, fresh);
        }
    }
}

/// Gives the cgroups below a place, by their links, that share none the limit files of these controllers.
fn refit_slots(
    links: &[Link],
    slots: &mut [Slot],
    at: usize,
    changed: ControllerSet,
    fresh: &Cgroup,
)
    requires { length slots.old ≡ length links.now }
    ensures { RefitsSlots links.now at changed fresh.now slots.old slots.new }
{
    for i in 0..links.len() {
        if links[i].above == at && i != at {
            let slot = &mut slots[i];
            if slot.shared.is_none() {
                take_files(&mut slot.cgroup, changed, fresh);
            }
        }
    }
}
