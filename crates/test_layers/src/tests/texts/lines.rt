//! Operation lines, read and written.
use crate::tests::ops::{chmod, control, exit, fork, mkdir, moved, rmdir, set};
use cg_cgroup::files::{Controller, EntryName, Limit, LimitFile, Vocabulary};
use cg_lines::lines::{LONGEST_LINE, LineFault, has_short_line, op_text, read_op, read_op_in};
use cg_model::operation::Op;
use std::alloc::{AllocError, Global};
use std::test::Fail;

/// Of formats 1 and 2, and of format 4.
const VOCABULARIES: [Vocabulary; 2] = [Vocabulary::Format2, Vocabulary::Format4];

/// Whether a line is an operation's, and that operation is written as the line and a newline.
fn is_line(alloc: Global, vocabulary: Vocabulary, line: &str) -> Result<bool, LineFault> {
    match read_op_in(alloc, vocabulary, line.as_bytes()) {
        Ok(op) => {
            let text = op_text(alloc, &op)?;
            Ok(text.as_slice().strip_suffix(b"\n") == Some(line.as_bytes()))
        }
        Err(LineFault::BadWord) => Ok(false),
        Err(fault) => Err(fault),
    }
}

/// Whether an operation is written as a line and a newline, and the line is read as the operation.
fn is_written(
    alloc: Global,
    vocabulary: Vocabulary,
    op: &Op,
    line: &str,
) -> Result<bool, LineFault> {
    let text = op_text(alloc, op)?;
    let read = read_op_in(alloc, vocabulary, line.as_bytes())?;
    Ok(text.as_slice().strip_suffix(b"\n") == Some(line.as_bytes()) && read == *op)
}

/// `control /` and `count` times a word.
fn long_control(alloc: Global, count: usize, word: &str) -> Result<String, AllocError> {
    let mut line = String::from_str(alloc, "control /")?;
    for _ in 0..count {
        line.push_str(word)?;
    }
    Ok(line)
}

/// Lines of no operation, for their words, their numbers and their spaces.
const OF_NONE: [&str; 46] = [
    "",
    "move",
    "move 10",
    "Move 10 /c0",
    "freeze /c0",
    "control",
    "control /c0 memory",
    "control /c0 +perf_event",
    "control /c0 +IO",
    "control /c0 +io -io.max",
    "control /c0 +",
    "mkdir /c0/cgroup.procs",
    "mkdir /é",
    "rmdir c0",
    "set /c0 cgroup.procs 1",
    "set /c0 io.max",
    "set /c0 io.max 8:0  rbps=1",
    "set /c0 io.max max ",
    "set /c0 io.stat max",
    "set /c0 pids.max Max",
    "fork 11",
    "exit /c0",
    "chmod /c0 cgroup.controllers 644",
    "move 010 /c0",
    "move 0 /c0",
    "move 4194304 /c0",
    "move +10 /c0",
    "set /c0 pids.max -1",
    "set /c0 pids.max 00",
    "set /c0 pids.max 18446744073709551616",
    "fork 11 011",
    "exit 0x63",
    "chmod /c0 dir 75",
    "chmod /c0 dir 0755",
    "chmod /c0 dir 788",
    " ",
    " move 10 /c0",
    "move 10 /c0 ",
    "move 10 /c0\r",
    "move 10 /c0\n",
    "move 10  /c0",
    "move\t10 /c0",
    "control /c0 ",
    "control /c0 + memory",
    "control /c0 +cpu  -cpu",
    "exit 99 ",
];

const OF_OPERATIONS: [&str; 15] = [
    "move 10 /c0",
    "move 1 /",
    "control /c0",
    "control /c0 +cpu -memory +pids -pids",
    "mkdir /c0/c01",
    "rmdir /c0/c00",
    "set /c0 pids.max max",
    "set /c0 pids.max 0",
    "set /c0 pids.max 18446744073709551615",
    "fork 11 4194303",
    "exit 99",
    "chmod /c0 dir 755",
    "chmod / cgroup.procs 000",
    "chmod /c0 cgroup.subtree_control 007",
    "chmod /c0 memory.max 640",
];

/// Lines of operations where all controllers and limit files are named, and else of none.
const OF_FORMAT_4: [&str; 9] = [
    "control /c0 +io",
    "control / -cpuset",
    "control /c0 +cpu +dmem",
    "control /c0 -dmem +misc -rdma +pids -hugetlb +memory -io +cpu -cpuset",
    "control /c0/io -hugetlb +hugetlb -hugetlb",
    "set /c0 io.max 8:0 rbps=1 wiops=max",
    "set / cgroup.freeze 1",
    "set /c0 hugetlb.16GB.rsvd.max abc",
    "chmod /c0 memory.zswap.writeback 640",
];

#[test]
fn lines_of_operations_and_of_none(rt: HostRuntime) -> Result<(), Fail> {
    for (lines, of_an_operation) in [
        (OF_NONE.as_slice(), [false, false]),
        (&OF_OPERATIONS, [true, true]),
        (&OF_FORMAT_4, [false, true]),
    ] {
        for line in lines {
            for (vocabulary, is_one) in VOCABULARIES.iter().zip(of_an_operation) {
                assert_eq!(rt; is_line(rt.alloc(), *vocabulary, line)?, is_one, "{line}");
            }
            let op = read_op(rt.alloc(), line.as_bytes());
            assert_eq!(rt; op.is_ok(), of_an_operation[0], "{line}");
        }
    }
    for vocabulary in VOCABULARIES {
        let bytes = read_op_in(rt.alloc(), vocabulary, b"mkdir /\xff");
        assert_eq!(rt; bytes.err(), Some(LineFault::BadWord));
    }
    Ok(())
}

#[test]
fn operations_are_written_and_read(rt: HostRuntime) -> Result<(), Fail> {
    let a = rt.alloc();
    let changes = [(true, Controller::Memory), (false, Controller::Cpu)];
    let weight = EntryName::File(LimitFile::CpuWeight);
    for (op, line) in [
        (moved(a, 11, "/a/b"), "move 11 /a/b"),
        (fork(11, 4194303), "fork 11 4194303"),
        (exit(11), "exit 11"),
        (mkdir(a, "/a"), "mkdir /a"),
        (rmdir(a, "/"), "rmdir /"),
        (control(a, "/a", &[]), "control /a"),
        (control(a, "/a", &changes), "control /a +memory -cpu"),
        (
            set(a, "/", LimitFile::PidsMax, Limit::At(7)),
            "set / pids.max 7",
        ),
        (
            set(a, "/a", LimitFile::MemoryLow, Limit::Max),
            "set /a memory.low max",
        ),
        (chmod(a, "/a", EntryName::Dir, 0o007), "chmod /a dir 007"),
        (chmod(a, "/a", weight, 0o640), "chmod /a cpu.weight 640"),
    ] {
        let op = op.ok_or("an operation")?;
        for vocabulary in VOCABULARIES {
            assert!(rt; is_written(a, vocabulary, &op, line)?, "{line}");
            assert!(rt; has_short_line(vocabulary, &op), "{line}");
        }
    }
    Ok(())
}

#[test]
fn all_nine_controllers_are_written_and_read(rt: HostRuntime) -> Result<(), Fail> {
    let a = rt.alloc();
    for controller in Controller::ALL {
        for (on, sign) in [(true, '+'), (false, '-')] {
            let op = control(a, "/a", &[(on, controller), (!on, Controller::Memory)]);
            let op = op.ok_or("an operation")?;
            let other = if on { '-' } else { '+' };
            let name = controller.name();
            let line = format!(in a; "control /a {sign}{name} {other}memory")?;
            assert!(rt;
                is_written(a, Vocabulary::Format4, &op, line.as_str())?,
                "{line}"
            );
            assert_eq!(rt;
                has_short_line(Vocabulary::Format2, &op),
                controller.is_in_format_2()
            );
            assert!(rt; has_short_line(Vocabulary::Format4, &op));
        }
    }
    Ok(())
}

#[test]
fn the_longest_line(rt: HostRuntime) -> Result<(), Fail> {
    let mut line = long_control(rt.alloc(), 1635, " +cpu")?;
    line.push_str(" +memory")?;
    assert_eq!(rt; line.len(), LONGEST_LINE);
    let longer = long_control(rt.alloc(), 1364, " +pids")?;
    assert_eq!(rt; longer.len(), LONGEST_LINE + 1);
    for vocabulary in VOCABULARIES {
        assert!(rt; is_line(rt.alloc(), vocabulary, line.as_str())?);
        assert_eq!(rt;
            read_op_in(rt.alloc(), vocabulary, longer.as_bytes()).err(),
            Some(LineFault::TooLong)
        );
    }
    Ok(())
}

/// `count` changes of a controller at the longest path.
fn changes_at_longest(alloc: Global, count: usize, controller: Controller) -> Result<Op, Fail> {
    let mut path = String::new(alloc);
    for _ in 0..15 {
        path.push('/')?;
        for _ in 0..255 {
            path.push('d')?;
        }
    }
    path.push('/')?;
    for _ in 0..254 {
        path.push('e')?;
    }
    let mut words = Vec::new(alloc);
    for _ in 0..count {
        words.push((true, controller))?;
    }
    Ok(control(alloc, path.as_str(), words.as_slice()).ok_or("an operation")?)
}

/// Where an operation has as many changes as fit behind the longest path its line is read again, and with one more it may not be.
#[test]
fn the_most_changes(rt: HostRuntime) -> Result<(), Fail> {
    let a = rt.alloc();
    for (vocabulary, most, longest) in [
        (Vocabulary::Format2, 511, Controller::Memory),
        (Vocabulary::Format4, 454, Controller::Hugetlb),
    ] {
        let op = changes_at_longest(a, most, longest)?;
        assert!(rt; has_short_line(vocabulary, &op));
        let text = op_text(a, &op)?;
        let line = text.as_slice().strip_suffix(b"\n").ok_or("a newline")?;
        assert!(rt; read_op_in(a, vocabulary, line)? == op);
        let op = changes_at_longest(a, most + 1, longest)?;
        assert!(rt; !has_short_line(vocabulary, &op));
        assert!(rt; op_text(a, &op)?.len() > LONGEST_LINE + 1);
    }
    Ok(())
}
