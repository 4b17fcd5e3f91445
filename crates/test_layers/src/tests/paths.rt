//! Paths.
use crate::tests::files::NAMED;
use cg_cgroup::path::{Path, PathFault};
use std::alloc::{AllocError, Global};
use std::cmp::Ordering;
use std::process::Abort;
use std::test::Fail;

/// Whether a text is a path's, and the path gives it back.
fn is_path(alloc: Global, text: &str) -> Result<bool, PathFault> {
    match Path::parse(alloc, text) {
        Ok(path) => Ok(path.prefix(path.depth()) == text),
        Err(PathFault::BadPath) => Ok(false),
        Err(PathFault::NoMemory) => Err(PathFault::NoMemory),
    }
}

fn path(alloc: Global, text: &str) -> Result<Path, PathFault> {
    Path::parse(alloc, text)
}

/// The text of the path of the first `len` names and `name`.
fn child(alloc: Global, path: &Path, len: usize, name: &str) -> Result<String, PathFault> {
    let child = path.with_child(alloc, len.min(path.depth()), name)?;
    Ok(String::from_str(alloc, child.prefix(child.depth()))?)
}

/// A slash and a name of `len` bytes, `count` times.
fn chain(alloc: Global, count: usize, len: usize) -> Result<String, AllocError> {
    let mut text = String::new(alloc);
    for _ in 0..count {
        text.push('/')?;
        for _ in 0..len {
            text.push('a')?;
        }
    }
    Ok(text)
}

const PATHS: [&str; 9] = [
    "/",
    "/a",
    "/a/b/c",
    "/c0/c01",
    "/...",
    "/a.b",
    "/!/~",
    "/cpu",
    "/cgroup.events",
];

const NO_PATHS: [&str; 13] = [
    "", "a", "a/b", "//", "//a", "/a/", "/a//b", "/.", "/..", "/a/../b", "/a b", "/\u{7f}", "/é",
];

#[test]
fn texts_that_are_paths_or_none(rt: HostRuntime) -> Result<(), Fail> {
    for text in PATHS {
        assert!(rt; is_path(rt.alloc(), text)?, "{text}");
    }
    for text in NO_PATHS {
        assert!(rt; !is_path(rt.alloc(), text)?, "{text}");
    }
    Ok(())
}

/// Fails where a name may be a cgroup's, or where one that is longer may not.
fn expect_reserved(rt: &impl Abort, alloc: Global, name: &str) -> Result<(), Fail> {
    assert!(rt;
        !is_path(alloc, format!(in alloc; "/{name}")?.as_str())?,
        "{name}"
    );
    assert!(rt;
        !is_path(alloc, format!(in alloc; "/a/{name}/b")?.as_str())?,
        "{name}"
    );
    assert!(rt;
        is_path(alloc, format!(in alloc; "/{name}x")?.as_str())?,
        "{name}"
    );
    Ok(())
}

#[test]
fn reserved_names(rt: HostRuntime) -> Result<(), Fail> {
    for (_, name) in NAMED {
        expect_reserved(&rt, rt.alloc(), name)?;
    }
    for name in [
        "cgroup.controllers",
        "cgroup.procs",
        "cgroup.subtree_control",
    ] {
        expect_reserved(&rt, rt.alloc(), name)?;
    }
    Ok(())
}

#[test]
fn longest_names_and_texts(rt: HostRuntime) -> Result<(), Fail> {
    assert!(rt; is_path(rt.alloc(), chain(rt.alloc(), 1, 255)?.as_str())?);
    assert!(rt; !is_path(rt.alloc(), chain(rt.alloc(), 1, 256)?.as_str())?);
    let mut text = chain(rt.alloc(), 15, 255)?;
    text.push_str(chain(rt.alloc(), 1, 254)?.as_str())?;
    assert_eq!(rt; text.len(), 4095);
    assert!(rt; is_path(rt.alloc(), text.as_str())?);
    text.push('a')?;
    assert!(rt; !is_path(rt.alloc(), text.as_str())?);
    assert!(rt; is_path(rt.alloc(), chain(rt.alloc(), 2047, 1)?.as_str())?);
    assert!(rt; !is_path(rt.alloc(), chain(rt.alloc(), 2048, 1)?.as_str())?);
    Ok(())
}

#[test]
fn names_and_prefixes(rt: HostRuntime) -> Result<(), Fail> {
    let long = path(rt.alloc(), "/c0/c01/b")?;
    assert_eq!(rt; long.depth(), 3);
    assert_eq!(rt; long.name(0), "c0");
    assert_eq!(rt; long.name(2), "b");
    assert_eq!(rt; long.prefix(0), "/");
    assert_eq!(rt; long.prefix(2), "/c0/c01");
    assert_eq!(rt; long.parent_len(), 2);
    Ok(())
}

#[test]
fn copies_and_paths_of_first_names(rt: HostRuntime) -> Result<(), Fail> {
    let long = path(rt.alloc(), "/c0/c01/b")?;
    assert_eq!(rt; long.depth(), 3);
    assert!(rt; long.try_clone(rt.alloc())? == long);
    let parent = long.try_prefix(rt.alloc(), 2)?;
    assert_eq!(rt; parent.prefix(parent.depth()), "/c0/c01");
    assert!(rt; parent != long);
    Ok(())
}

#[test]
fn the_root(rt: HostRuntime) -> Result<(), Fail> {
    let root = path(rt.alloc(), "/")?;
    assert_eq!(rt; root.depth(), 0);
    assert!(rt; Path::root(rt.alloc()) == root);
    assert!(rt; path(rt.alloc(), "/c0/c01")?.try_prefix(rt.alloc(), 0)? == root);
    Ok(())
}

#[test]
fn children(rt: HostRuntime) -> Result<(), Fail> {
    let parent = path(rt.alloc(), "/c0/c01")?;
    let wanted = [
        (2, "b", "/c0/c01/b"),
        (1, "probe0", "/c0/probe0"),
        (0, "a", "/a"),
    ];
    for (len, name, text) in wanted {
        assert_eq!(rt; child(rt.alloc(), &parent, len, name)?.as_str(), text);
    }
    Ok(())
}

#[test]
fn no_children(rt: HostRuntime) -> Result<(), Fail> {
    let parent = path(rt.alloc(), "/c0/c01")?;
    for name in ["", ".", "a/b", "memory.max", "a b"] {
        assert_eq!(rt;
            child(rt.alloc(), &parent, 2, name).err(),
            Some(PathFault::BadPath)
        );
    }
    Ok(())
}

#[test]
fn children_with_the_longest_text(rt: HostRuntime) -> Result<(), Fail> {
    let deep = path(rt.alloc(), chain(rt.alloc(), 2046, 1)?.as_str())?;
    assert!(rt; child(rt.alloc(), &deep, 2046, "ab").is_ok());
    assert_eq!(rt;
        child(rt.alloc(), &deep, 2046, "abc").err(),
        Some(PathFault::BadPath)
    );
    assert!(rt; child(rt.alloc(), &deep, 2045, "abc").is_ok());
    Ok(())
}

#[test]
fn inside(rt: HostRuntime) -> Result<(), Fail> {
    let short = path(rt.alloc(), "/c0")?;
    let other = path(rt.alloc(), "/c01")?;
    let child = path(rt.alloc(), "/c0/c01")?;
    assert!(rt; short.is_prefix_of(&child));
    assert!(rt; short.is_prefix_of(&short));
    assert!(rt; !short.is_prefix_of(&other));
    assert!(rt; !child.is_prefix_of(&short));
    assert_eq!(rt; child.depth(), 2);
    assert!(rt; child.holds(1, &short));
    assert!(rt; !child.holds(2, &short));
    assert!(rt; child.holds(0, &other));
    Ok(())
}

#[test]
fn common_names(rt: HostRuntime) -> Result<(), Fail> {
    let child = path(rt.alloc(), "/c0/c01")?;
    assert_eq!(rt; child.common_len(&path(rt.alloc(), "/c0")?), 1);
    assert_eq!(rt; child.common_len(&path(rt.alloc(), "/c01")?), 0);
    assert_eq!(rt; child.common_len(&path(rt.alloc(), "/c0/c01/b")?), 2);
    Ok(())
}

#[test]
fn order(rt: HostRuntime) -> Result<(), Fail> {
    let wanted = [
        ("/c0", "/c0/c01"),
        ("/c0/c01", "/c0-x"),
        ("/c0", "/c01"),
        ("/", "/c0"),
    ];
    for (less, greater) in wanted {
        let less = path(rt.alloc(), less)?;
        let greater = path(rt.alloc(), greater)?;
        assert_eq!(rt; less.cmp(&greater), Ordering::Less);
        assert_eq!(rt; less.partial_cmp(&greater), Some(Ordering::Less));
        assert_eq!(rt; greater.partial_cmp(&less), Some(Ordering::Greater));
    }
    Ok(())
}

#[test]
fn order_of_first_names(rt: HostRuntime) -> Result<(), Fail> {
    let short = path(rt.alloc(), "/c0")?;
    let child = path(rt.alloc(), "/c0/c01")?;
    assert_eq!(rt; child.depth(), 2);
    assert_eq!(rt; short.cmp_prefix(&child, 1), Ordering::Equal);
    assert_eq!(rt; child.cmp_prefixes(2, &child, 1), Ordering::Greater);
    Ok(())
}
