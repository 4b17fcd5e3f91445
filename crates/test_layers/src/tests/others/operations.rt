//! What is done to such files on both kinds of trees, and what the trees say of them then.
use crate::tests::indexed::alike::hold;
use crate::tests::others::trees::{outcome_of, said_of, tree_of};
use crate::tests::trees::fixtures::{Owners, copy_of, path};
use cg_indexed::indexed::Indexed;
use cg_model::hierarchy::Hierarchy;
use cg_rows::rows::Rows;
use std::alloc::Global;
use std::process::Abort;
use std::str::from_utf8;
use std::test::Fail;

/// Operations, a uid before each, and how they end; and what is said of files of cgroups. Of `/s` the directory is user 1000's.
const UNTOLD: &str = "
/s cgroup.freeze: 0:0 644 as it is
1000 set /s cgroup.freeze 1: refused no-access /s cgroup.freeze
1000 chmod /s cgroup.freeze 666: refused not-owner /s cgroup.freeze
/s cgroup.freeze: 0:0 644 as it is
/s io.max: not there
1000 set /s io.max max: refused no-such-file /s io.max
1000 chmod /s io.max 666: refused no-such-file /s io.max
1000 set /b cgroup.freeze 1: refused no-such-cgroup /b
1000 chmod /b cgroup.freeze 666: refused no-such-cgroup /b
/b cgroup.freeze: not there
/ cgroup.freeze: not there
1000 set / cgroup.freeze 1: refused no-such-file / cgroup.freeze
1000 chmod / cgroup.freeze 666: refused no-such-file / cgroup.freeze
1000 control / +io: ok
/ io.max: not there
/s io.max: 1000:0 644 as it is
/s memory.swap.max: not there
/s/a io.max: not there
";

/// The owner stays the one that the file had.
const TOLD: &str = "
1000 control / +io: ok
1000 set /s io.max 8:0 rbps=1: ok
/s io.max: 1000:0 644 8:0 rbps=1
/s io.weight: 1000:0 644 as it is
1001 set /s io.max max: refused no-access /s io.max
1001 chmod /s io.max 666: refused not-owner /s io.max
1000 chmod /s io.max 446: ok
/s io.max: 1000:0 446 8:0 rbps=1
1000 set /s io.max max: refused no-access /s io.max
1001 set /s io.max 8:0 wiops=2: ok
/s io.max: 1000:0 446 8:0 wiops=2
1000 chmod /s io.weight 646: ok
/s io.weight: 1000:0 646 as it is
1001 set /s io.weight default 5: ok
/s io.weight: 1000:0 646 default 5
1000 set /s/a cgroup.freeze 1: ok
/s/a cgroup.freeze: 1000:0 644 1
/s cgroup.freeze: 0:0 644 as it is
";

/// What is told of a file goes with its controller or its cgroup, and what is told of others stays.
const GOING: &str = "
1000 control / +io +memory: ok
1000 set /s io.max 8:0 rbps=1: ok
1000 chmod /s memory.swap.max 666: ok
1000 set /s/a cgroup.freeze 1: ok
1000 control / -io +io: ok
/s io.max: 1000:0 644 8:0 rbps=1
1000 control / -io: ok
/s io.max: not there
/s memory.swap.max: 1000:0 666 as it is
/s/a cgroup.freeze: 1000:0 644 1
1000 control / +io: ok
/s io.max: 1000:0 644 as it is
1000 rmdir /s/a: ok
/s/a cgroup.freeze: not there
1000 mkdir /s/a: ok
/s/a cgroup.freeze: 1000:0 644 as it is
1000 control / -memory: ok
/s memory.swap.max: not there
";

/// What a tree answers to the first part of a line: an outcome, or what it says of a file.
fn answer<H: Hierarchy>(alloc: Global, tree: &mut H, asked: &str) -> Result<String, Fail> {
    let (first, rest) = asked.split_once(' ').ok_or("one word")?;
    if first.starts_with('/') {
        return said_of(alloc, tree, first, rest);
    }
    let outcome = outcome_of(alloc, tree, first.parse()?, rest)?;
    Ok(String::from_str(alloc, from_utf8(&outcome)?.trim_end())?)
}

/// Fails where a tree answers otherwise to the lines of a text, or another tree that is kept otherwise.
fn expect<A: Hierarchy, B: Hierarchy>(
    rt: &impl Abort,
    alloc: Global,
    one: &mut A,
    other: &mut B,
    text: &str,
) -> Result<(), Fail> {
    let paths = [path(alloc, "/s/a")?, path(alloc, "/b")?];
    for line in text.trim().lines() {
        let (asked, wanted) = line.split_once(": ").ok_or("no answer")?;
        assert_eq!(rt; answer(alloc, one, asked)?.as_str(), wanted, "{line}");
        assert_eq!(rt; answer(alloc, other, asked)?.as_str(), wanted, "{line}");
        hold(rt, alloc, one, other, &paths, 1)?;
    }
    Ok(())
}

/// Fails where the cgroups of a tree, kept in the other way, answer otherwise than those of another tree.
fn hold_taken<H: Hierarchy>(
    rt: &impl Abort,
    alloc: Global,
    rows: Rows,
    other: &H,
) -> Result<(), Fail> {
    let paths = [path(alloc, "/s/a")?];
    let taken = Indexed::from_rows(alloc, rows)?;
    hold(rt, alloc, &taken, other, &paths, 1)?;
    hold(rt, alloc, &copy_of(alloc, &taken)?, other, &paths, 1)?;
    Ok(())
}

#[test]
fn files_are_told_of_and_forgotten(rt: HostRuntime) -> Result<(), Fail> {
    let alloc = rt.alloc();
    for text in [UNTOLD, TOLD, GOING] {
        let mut rows = tree_of(alloc, Owners::PROCESSES)?;
        let mut indexed = Indexed::from_rows(alloc, copy_of(alloc, &rows)?)?;
        expect(&rt, alloc, &mut rows, &mut indexed, text)?;
        hold_taken(&rt, alloc, rows, &indexed)?;
    }
    Ok(())
}
