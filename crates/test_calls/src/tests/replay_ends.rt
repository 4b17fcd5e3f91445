//! Where a replay ends: faults before its first line, and lines that are too long, too many, cut or not read.
use super::answers_written::REPLAYS;
use super::calls::{Call, expect_fault};
use super::readers::{Again, Pieces};
use crate::tests::users::{MANY_GROUPS, MOST_GROUPS, USER, user};
use cg_cli::replay::replay_from;
use cg_faults::fault::{CliFault, fault_text};
use cg_lines::lines::LineFault;
use cg_text::tree::{Place, TreeFault};
use std::alloc::{AllocError, Global};
use std::io::{BufRead, ErrorKind};
use std::process::Abort;
use std::test::Fail;
use test_trees::texts::{DELEGATION, NO_PARENT};

/// A replay of user 1000 in the delegation, whose operations come from a reader.
fn replay_reader<R: BufRead>(
    alloc: Global,
    subtree: Option<&str>,
    ops: &mut R,
    out: &mut Vec<u8>,
) -> Result<u8, CliFault> {
    replay_from(alloc, DELEGATION, USER, subtree, ops, out)
}

/// A text so many times.
fn times(alloc: Global, text: &[u8], count: usize) -> Result<Vec<u8>, AllocError> {
    let mut all = Vec::new(alloc);
    for _ in 0..count {
        all.extend_from_slice(text)?;
    }
    Ok(all)
}

#[test]
fn a_fault_before_the_lines_leaves_nothing_written(rt: HostRuntime) {
    let no_parent = CliFault::Tree(TreeFault::NoParent(Place::Cgroup(2)));
    for (uid, gids, tree, fault) in [
        (0, MANY_GROUPS, b"".as_slice(), CliFault::Uid),
        (1000, MANY_GROUPS, b"".as_slice(), CliFault::Gids),
        (1000, MOST_GROUPS, NO_PARENT, no_parent),
    ] {
        let user = user(uid, gids);
        expect_fault(&rt, rt.alloc(), tree, Call::Replay(user, None, b"x"), fault);
        let mut out = Vec::new(rt.alloc());
        let mut ops = Pieces::new(b"x", 1);
        let ended = replay_from(rt.alloc(), tree, user, None, &mut ops, &mut out);
        assert_eq!(rt; ended, Err(fault));
        assert_eq!(rt; out.len(), 0);
        assert_eq!(rt; ops.asked, 0);
    }
}

#[test]
fn a_fault_of_a_line_has_its_line(rt: HostRuntime) -> Result<(), Fail> {
    for (fault, text) in [
        (LineFault::TooLong, "fault: line 7 too-long\n"),
        (LineFault::BadWord, "fault: line 7 bad-word\n"),
        (LineFault::Cut, "fault: line 7 cut\n"),
        (LineFault::NoMemory, "fault: memory\n"),
    ] {
        let line = fault_text(rt.alloc(), &CliFault::Line { number: 7, fault })?;
        assert_eq!(rt; line.as_slice(), text.as_bytes());
    }
    let line = fault_text(rt.alloc(), &CliFault::TooManySteps)?;
    assert_eq!(rt; line.as_slice(), b"fault: too-many-steps\n".as_slice());
    Ok(())
}

/// The fault of a line that isn't looked into.
fn line_fault(number: u32, fault: LineFault) -> Result<u8, CliFault> {
    Err(CliFault::Line { number, fault })
}

#[test]
fn a_line_without_its_newline_is_cut_or_too_long(rt: HostRuntime) -> Result<(), Fail> {
    for (count, fault) in [
        (1, LineFault::Cut),
        (8192, LineFault::Cut),
        (8193, LineFault::TooLong),
        (20000, LineFault::TooLong),
    ] {
        let ops = times(rt.alloc(), b"x", count)?;
        let call = Call::Replay(USER, None, ops.as_slice());
        let fault = CliFault::Line { number: 1, fault };
        expect_fault(&rt, rt.alloc(), DELEGATION, call, fault);
    }
    Ok(())
}

#[test]
fn a_line_of_8192_bytes_is_answered_and_a_longer_one_is_not(rt: HostRuntime) -> Result<(), Fail> {
    let mut ops = b"control /".to_vec(rt.alloc())?;
    ops.extend_from_slice(times(rt.alloc(), b" +cpu", 1635)?.as_slice())?;
    ops.extend_from_slice(b" +memory")?;
    assert_eq!(rt; ops.len(), 8192);
    ops.extend_from_slice(b"\ncontrol /")?;
    ops.extend_from_slice(times(rt.alloc(), b" +pids", 1364)?.as_slice())?;
    ops.extend_from_slice(b"\n")?;
    for size in [1, 100, 8192, 8193, 20000] {
        let mut out = Vec::new(rt.alloc());
        let mut pieces = Pieces::new(ops.as_slice(), size);
        let ending = replay_reader(rt.alloc(), None, &mut pieces, &mut out);
        assert_eq!(rt; ending, line_fault(2, LineFault::TooLong));
        assert_eq!(rt;
            out.as_slice(),
            b"refused no-access / cgroup.subtree_control\n".as_slice()
        );
    }
    Ok(())
}

#[test]
fn a_replay_has_65536_operations_at_most(rt: HostRuntime) -> Result<(), Fail> {
    let mut ops = times(rt.alloc(), b"exit 99\n", 65536)?;
    let report = times(rt.alloc(), b"refused no-such-process 99\n", 65536)?;
    for ending in [Ok(0), Err(CliFault::TooManySteps)] {
        let mut out = Vec::new(rt.alloc());
        let call = Call::Replay(USER, None, ops.as_slice());
        assert_eq!(rt; call.make(rt.alloc(), DELEGATION, &mut out), ending);
        assert!(rt; out == report);
        ops.extend_from_slice(b"\n")?;
    }
    Ok(())
}

#[test]
fn an_endless_reader_is_left(rt: HostRuntime) -> Result<(), Fail> {
    let mut endless = Again::new(b"x");
    let mut out = Vec::new(rt.alloc());
    let ending = replay_reader(rt.alloc(), None, &mut endless, &mut out);
    assert_eq!(rt; ending, line_fault(1, LineFault::TooLong));
    assert_eq!(rt; out.len(), 0);
    assert_eq!(rt; endless.asked, 8193);
    let mut endless = Again::new(b"exit 99\n");
    let ending = replay_reader(rt.alloc(), None, &mut endless, &mut out);
    assert_eq!(rt; ending, Err(CliFault::TooManySteps));
    assert!(rt; out == times(rt.alloc(), b"refused no-such-process 99\n", 65536)?);
    assert_eq!(rt; endless.asked, 524_289);
    Ok(())
}

/// How many newlines are in a text.
fn newlines(text: &[u8]) -> usize {
    text.iter().filter(|byte| **byte == b'\n').count()
}

/// The first lines of a text.
fn first_lines(text: &[u8], count: usize) -> &[u8] {
    let mut left = count;
    for (i, byte) in text.iter().enumerate() {
        if left == 0 {
            return &text[..i];
        }
        if *byte == b'\n' {
            left -= 1;
        }
    }
    text
}

/// A reader that fails in one way at each ask in turn: with what fault the replay ends, and what it has written.
fn assert_failed_reads(rt: &impl Abort, alloc: Global, kind: ErrorKind, fault: CliFault) {
    for (ops, report) in REPLAYS {
        for given in 0..=ops.len() {
            let mut pieces = Pieces::new(ops, 1);
            pieces.fails_at = given as u64 + 1;
            pieces.kind = kind;
            let mut out = Vec::new(alloc);
            let ending = replay_reader(alloc, Some("/c0"), &mut pieces, &mut out);
            assert_eq!(rt; ending, Err(fault));
            assert_eq!(rt; pieces.asked, pieces.fails_at);
            assert_eq!(rt;
                out.as_slice(),
                first_lines(report, newlines(&ops[..given]))
            );
        }
    }
}

#[test]
fn a_failed_read_leaves_the_lines_before_it(rt: HostRuntime) {
    for (kind, fault) in [
        (ErrorKind::Interrupted, CliFault::Read),
        (ErrorKind::IsADirectory, CliFault::Read),
        (ErrorKind::OutOfMemory, CliFault::NoMemory),
    ] {
        assert_failed_reads(&rt, rt.alloc(), kind, fault);
    }
}
