//! What each row of guards asks, one thing after another.
use cg_cgroup::files::Limit;
use cg_cgroup::path::Path;
use cg_cgroup::user::User;
use cg_explain::counted::{Counted, counts_below};
use cg_explain::first::{Told, first_row};
use cg_explain::second::{Asked, Growing, Place, Staying, Switch, Taking, second_row};
use cg_guards::failed::failed_guard;
use cg_model::mend::Class;
use cg_rows::rows::Rows;
use cg_text::tree::read_tree;
use std::alloc::{AllocError, Global};
use std::test::Fail;
use test_trees::texts::DELEGATION;

/// A tree of `/a/b` and `/c` with these entries of these cgroups so, and so many descendants of `/a/b`.
fn tree_of(alloc: Global, entries: &[(usize, &str)], so: &str, most: u64) -> Result<Rows, Fail> {
    let mut text = format!(in alloc; "format = 2\ncontrollers = [\"cpu\", \"memory\"]\n")?;
    for (at, (path, enabled)) in CGROUPS.iter().enumerate() {
        text = format!(in alloc; "{text}[[cgroup]]\npath = \"{path}\"\nenabled = [{enabled}]\n")?;
        for (place, name) in entries {
            if *place == at && *name == "dir" {
                text = format!(in alloc; "{text}dir = {so}\n")?;
            }
        }
        text = format!(in alloc; "{text}[cgroup.files]\n")?;
        if *path == "/a/b" {
            text = format!(in alloc; "{text}\"cgroup.max.descendants\" = {{ value = {most} }}\n")?;
        }
        for (place, name) in entries {
            if *place == at && *name != "dir" {
                text = format!(in alloc; "{text}\"{name}\" = {so}\n")?;
            }
        }
    }
    Ok(read_tree(alloc, text.as_bytes())?)
}

/// The cgroups, and what each enables.
const CGROUPS: [(&str, &str); 5] = [
    ("/", "\"cpu\", \"memory\""),
    ("/a", "\"memory\""),
    ("/a/b", ""),
    ("/a/b/d", ""),
    ("/c", "\"memory\""),
];

/// Entries of these that one of the rows may look at.
const ENTRIES: [(usize, &str); 16] = [
    (0, "dir"),
    (0, "cgroup.procs"),
    (0, "cgroup.subtree_control"),
    (1, "dir"),
    (1, "cgroup.procs"),
    (1, "cgroup.subtree_control"),
    (1, "memory.max"),
    (2, "dir"),
    (2, "cgroup.procs"),
    (2, "memory.max"),
    (2, "memory.low"),
    (3, "dir"),
    (3, "cgroup.procs"),
    (4, "dir"),
    (4, "cgroup.procs"),
    (4, "cgroup.subtree_control"),
];

const OWNED: &str = "{ uid = 1000, mode = 0o444 }";

/// Whether all is so that the first row asks.
fn first_holds(alloc: Global, tree: &Rows, user: &User, subtree: &Path) -> Result<bool, Fail> {
    let within = counts_below(tree, subtree).ok_or("counts")?;
    let row = first_row(alloc, tree, user, subtree)?;
    Ok(
        row.iter().all(|told| told.by.is_none())
            && within.descendants.is_within()
            && within.depth.is_within(),
    )
}

/// Whether all is so that the second row asks.
fn second_holds(alloc: Global, tree: &Rows, user: &User, subtree: &Path) -> Result<bool, Fail> {
    let within = counts_below(tree, subtree).ok_or("counts")?;
    let row = second_row(alloc, tree, std::slice::from_ref(user), subtree)?;
    Ok(
        row.iter().all(|asked| asked.is_met())
            && within.descendants.is_within()
            && within.depth.is_within(),
    )
}

/// What is told of an entry of the first row: the cgroup, the entry and the class.
fn word_of_entry(alloc: Global, subtree: &Path, told: &Told) -> Result<String, AllocError> {
    let place = subtree.prefix(told.at.len);
    let by = match told.by {
        None => "held",
        Some(Class::Owner) => "owner",
        Some(Class::Group) => "group",
        Some(Class::Others) => "others",
    };
    format!(in alloc;
        "{} {place} {} {by}\n",
        told.at.guard.name(),
        told.at.name.name()
    )
}

/// What is asked by the second row, and by what it is so.
fn word_of_asked(alloc: Global, asked: &Asked) -> Result<String, AllocError> {
    match asked {
        Asked::Stays(None) => format!(in alloc; "goes\n"),
        Asked::Stays(Some(Staying::Spared)) => format!(in alloc; "stays spared\n"),
        Asked::Stays(Some(Staying::Upheld)) => format!(in alloc; "stays upheld\n"),
        Asked::Control(controller, how) => {
            let how = match how {
                None => "turned",
                Some(Switch::On) => "on",
                Some(Switch::Off) => "off",
            };
            format!(in alloc; "{} {how}\n", controller.name())
        }
        Asked::Files(true) => format!(in alloc; "files spared\n"),
        Asked::Files(false) => format!(in alloc; "files reached\n"),
        Asked::Shut(place) => word_of_place(alloc, place),
    }
}

fn word_of_place(alloc: Global, place: &Place) -> Result<String, AllocError> {
    let takes = match place.takes_none {
        None => "takes",
        Some(Taking::Spared) => "spared",
        Some(Taking::Enabling) => "enabling",
    };
    let grows = match place.grows_none {
        None => "grows",
        Some(Growing::Spared) => "spared",
        Some(Growing::Full) => "full",
    };
    let path = place.path.prefix(place.path.depth());
    format!(in alloc; "{path} {takes} {grows}\n")
}

/// The words of the second row against user 1000.
fn second_words(alloc: Global, tree: &Rows, path: &str) -> Result<String, Fail> {
    let user = User::new(1000).ok_or("user")?;
    let subtree = Path::parse(alloc, path)?;
    let mut words = String::new(alloc);
    for asked in &second_row(alloc, tree, std::slice::from_ref(&user), &subtree)? {
        words.push_str(word_of_asked(alloc, asked)?.as_str())?;
    }
    Ok(words)
}

/// So many, of a limit.
fn of(count: u64, limit: u64) -> Counted {
    let limit = Limit::At(limit);
    Counted { count, limit }
}

#[test]
fn a_delegation_is_told(rt: HostRuntime) -> Result<(), Fail> {
    let tree = read_tree(rt.alloc(), DELEGATION)?;
    let user = User::new(1000).ok_or("user")?;
    let subtree = Path::parse(rt.alloc(), "/c0")?;
    let mut words = String::new(rt.alloc());
    for told in &first_row(rt.alloc(), &tree, &user, &subtree)? {
        words.push_str(word_of_entry(rt.alloc(), &subtree, told)?.as_str())?;
    }
    assert_eq!(rt;
        words.as_str(),
        "common-ancestor / cgroup.procs held\n\
         limit-file /c0 cgroup.max.descendants held\n\
         limit-file /c0 cgroup.max.depth held\n\
         limit-file /c0 memory.min held\n\
         limit-file /c0 memory.low held\n\
         limit-file /c0 memory.high held\n\
         limit-file /c0 memory.max held\n\
         parent-control / cgroup.subtree_control held\n\
         parent-dir / dir held\n"
    );
    let counted = counts_below(&tree, &subtree).ok_or("counts")?;
    assert_eq!(rt; counted.descendants, of(2, 4));
    assert_eq!(rt; counted.depth, of(1, 2));
    assert_eq!(rt;
        second_words(rt.alloc(), &tree, "/c0")?.as_str(),
        "stays spared\ncpu off\nmemory on\npids off\nfiles spared\n"
    );
    Ok(())
}

/// By each class, and an entry that isn't the user's.
#[test]
fn entries_are_reached_by_a_class(rt: HostRuntime) -> Result<(), Fail> {
    let user = User::with_groups(1000, &[50]).ok_or("user")?;
    let subtree = Path::parse(rt.alloc(), "/a")?;
    for (so, by) in [
        (OWNED, Some(Class::Owner)),
        ("{ gid = 50, mode = 0o464 }", Some(Class::Group)),
        ("{ mode = 0o446 }", Some(Class::Others)),
        ("{ gid = 50, mode = 0o646 }", None),
        ("{ uid = 5, mode = 0o644 }", None),
    ] {
        let tree = tree_of(rt.alloc(), &[(0, "cgroup.procs")], so, 3)?;
        let row = first_row(rt.alloc(), &tree, &user, &subtree)?;
        let told = row.as_slice().first().ok_or("no entry")?;
        assert_eq!(rt; told.by, by, "{so}");
    }
    Ok(())
}

#[test]
fn places_are_told_where_a_move_may_lead(rt: HostRuntime) -> Result<(), Fail> {
    let entries = [(0, "cgroup.procs"), (2, "cgroup.procs"), (4, "dir")];
    let tree = tree_of(rt.alloc(), &entries, OWNED, 3)?;
    assert_eq!(rt;
        second_words(rt.alloc(), &tree, "/a")?.as_str(),
        "stays spared\ncpu on\nmemory on\npids off\nfiles spared\n\
         / takes spared\n/a spared spared\n/a/b takes spared\n/a/b/d spared spared\n/c spared grows\n"
    );
    Ok(())
}

#[test]
fn what_keeps_a_place_shut_is_told(rt: HostRuntime) -> Result<(), Fail> {
    let entries = [
        (0, "cgroup.procs"),
        (4, "cgroup.procs"),
        (2, "dir"),
        (3, "dir"),
    ];
    let tree = tree_of(rt.alloc(), &entries, OWNED, 0)?;
    assert_eq!(rt;
        second_words(rt.alloc(), &tree, "/a")?.as_str(),
        "stays spared\ncpu on\nmemory on\npids off\nfiles spared\n\
         / takes spared\n/a spared spared\n/a/b spared full\n/a/b/d spared full\n/c enabling spared\n"
    );
    Ok(())
}

/// A tree in which user 1000 moves processes past the root and makes cgroups, with these limits of depth.
fn tree_of_depths(alloc: Global, depths: [u64; 5]) -> Result<Rows, Fail> {
    let mut text = format!(in alloc;
        "format = 2\ncontrollers = []\n[[cgroup]]\npath = \"/\"\n[cgroup.files]\n\"cgroup.procs\" = {OWNED}\n"
    )?;
    for (at, path) in ["/a", "/a/b", "/a/b/d", "/a/e", "/c"].iter().enumerate() {
        let depth = depths[at];
        text = format!(in alloc;
            "{text}[[cgroup]]\npath = \"{path}\"\ndir = {OWNED}\n[cgroup.files]\n\"cgroup.max.depth\" = {{ value = {depth} }}\n"
        )?;
    }
    Ok(read_tree(alloc, text.as_bytes())?)
}

/// The cgroups in which a limit leaves no room, each behind a space.
fn full_places(alloc: Global, tree: &Rows) -> Result<String, Fail> {
    let user = User::new(1000).ok_or("user")?;
    let subtree = Path::parse(alloc, "/a")?;
    let mut words = String::new(alloc);
    for asked in &second_row(alloc, tree, std::slice::from_ref(&user), &subtree)? {
        words.push_str(word_of_full(alloc, asked)?.as_str())?;
    }
    Ok(words)
}

fn word_of_full(alloc: Global, asked: &Asked) -> Result<String, AllocError> {
    match asked {
        Asked::Shut(place) if place.grows_none == Some(Growing::Full) => {
            format!(in alloc; " {}", place.path.prefix(place.path.depth()))
        }
        _ => Ok(String::new(alloc)),
    }
}

/// A limit of depth counts for what is below it, beside a lower one too, and not for what comes behind.
#[test]
fn levels_are_told_where_none_are_left(rt: HostRuntime) -> Result<(), Fail> {
    for (depths, full) in [
        ([9, 0, 9, 9, 9], " /a/b /a/b/d"),
        ([2, 5, 9, 9, 9], " /a/b/d"),
        ([1, 9, 9, 9, 9], " /a/b /a/b/d /a/e"),
        ([9, 9, 0, 9, 9], " /a/b/d"),
        ([9, 9, 9, 9, 0], " /c"),
        ([9, 9, 9, 9, 9], ""),
    ] {
        let tree = tree_of_depths(rt.alloc(), depths)?;
        assert_eq!(rt; full_places(rt.alloc(), &tree)?.as_str(), full);
    }
    Ok(())
}

/// Whoever writes the parent's directory removes it, but not where one below it stays; and whoever writes its
/// `cgroup.subtree_control` turns what nobody below enables.
#[test]
fn what_the_parent_does_is_told(rt: HostRuntime) -> Result<(), Fail> {
    let entries = [(1, "dir"), (1, "cgroup.subtree_control"), (2, "memory.max")];
    let tree = tree_of(rt.alloc(), &entries, OWNED, 3)?;
    assert_eq!(rt;
        second_words(rt.alloc(), &tree, "/a/b")?.as_str(),
        "stays upheld\ncpu turned\nmemory turned\npids off\nfiles reached\n"
    );
    let tree = tree_of(rt.alloc(), &[(1, "dir"), (2, "dir")], OWNED, 3)?;
    assert_eq!(rt;
        second_words(rt.alloc(), &tree, "/a/b")?.as_str(),
        "goes\ncpu off\nmemory on\npids off\nfiles spared\n"
    );
    Ok(())
}

/// A tree of format 4 in which user 1000 writes what `/a` enables, which has `io` and `cpuset` above it, and what `/a/b` enables.
fn tree_of_others(alloc: Global, enabled: &str) -> Result<Rows, Fail> {
    let text = format!(in alloc;
        "format = 4
controllers = [\"dmem\", \"io\", \"cpuset\"]
[[cgroup]]
path = \"/\"
enabled = [\"cpuset\", \"io\"]
[[cgroup]]
path = \"/a\"
enabled = [\"io\"]
[cgroup.files]
\"cgroup.subtree_control\" = {OWNED}
[[cgroup]]
path = \"/a/b\"
enabled = [{enabled}]
"
    )?;
    Ok(read_tree(alloc, text.as_bytes())?)
}

/// The controllers are those of every tree and what else the root has, in their order.
#[test]
fn other_controllers_are_told(rt: HostRuntime) -> Result<(), Fail> {
    for (enabled, io) in [("", "turned"), ("\"io\"", "on")] {
        let tree = tree_of_others(rt.alloc(), enabled)?;
        let words = format!(in rt.alloc();
            "stays spared\ncpuset turned\ncpu off\nio {io}\nmemory off\npids off\ndmem off\nfiles spared\n"
        )?;
        let told = second_words(rt.alloc(), &tree, "/a/b")?;
        assert_eq!(rt; told.as_str(), words.as_str());
        assert!(rt; !rows_held(rt.alloc(), &tree, "/a/b")?[1]);
        let told = second_words(rt.alloc(), &tree, "/a")?;
        assert_eq!(rt;
            told.as_str(),
            "stays spared\ncpuset on\ncpu off\nio on\nmemory off\npids off\ndmem off\nfiles spared\n"
        );
    }
    Ok(())
}

/// Of trees in which one or two entries are the user's all that is told holds exactly where the row does.
#[test]
fn what_is_told_holds_where_the_rows_do(rt: HostRuntime) -> Result<(), Fail> {
    let mut held = [0; 2];
    for (place, one) in ENTRIES.iter().enumerate() {
        let other = ENTRIES[(place * 5 + 3) % ENTRIES.len()];
        for entries in [&[*one][..], &[*one, other][..]] {
            for most in [0, 3] {
                let tree = tree_of(rt.alloc(), entries, OWNED, most)?;
                for path in ["/a/b", "/a"] {
                    let holds = rows_held(rt.alloc(), &tree, path)?;
                    held[0] += u32::from(holds[0]);
                    held[1] += u32::from(holds[1]);
                }
            }
        }
    }
    assert!(rt; 0 < held[0] && held[0] < held[1]);
    Ok(())
}

/// Which of the rows hold, as it is told and as they say.
fn rows_held(alloc: Global, tree: &Rows, path: &str) -> Result<[bool; 2], Fail> {
    let user = User::new(1000).ok_or("user")?;
    let subtree = Path::parse(alloc, path)?;
    let users = std::slice::from_ref(&user);
    let told = [
        first_holds(alloc, tree, &user, &subtree)?,
        second_holds(alloc, tree, &user, &subtree)?,
    ];
    let said = [
        failed_guard(tree, &user, &subtree).is_none(),
        cg_second::row::second_row(alloc, tree, users, &subtree)?,
    ];
    if told != said {
        return Err("what is told isn't what the rows say".into());
    }
    Ok(told)
}
