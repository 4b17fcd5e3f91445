//! One operation line: where it ends, and its answer.
ghost use Rattle.std.specs.Prelude.{◌≡◌, ◌<◌, ◌≤◌, false, length, take, slice_index};
ghost use Rattle.std.specs.List.{All};
ghost use Rattle.cg_cli.specs.Replays.{is_newline, operation_read, most_operations};
ghost use Rattle.cg_cli.specs.Courses.{HasRoom};
ghost use Rattle.cg_cli.specs.Replaying.{Answered};

use crate::replay::course::OnCourse;
use crate::replay::protocol::{Protocol, outcome_said};
use cg_cgroup::user::User;
use cg_faults::fault::CliFault;
use cg_lines::lines::read_op_in;
use std::alloc::Global;
use std::io::Write;
use streams::write::write_whole;

/// How many operations a replay has at most.
pub const MOST_OPERATIONS: u32 = 65_536;

/// Where the first newline is, or how many bytes there are.
pub fn line_end(bytes: &[u8]) -> usize
    ensures bound { result ≤ length bytes.now }
    ensures before { All (λ b. is_newline b ≡ false) (take result bytes.now) }
    ensures newline { result < length bytes.now → slice_index bytes.now result ≡ 10 }
{
    for (i, byte) in bytes.iter().enumerate() {
        if *byte == b'\n' {
            return i;
        }
    }
    bytes.len()
}

/// Carries out the operation of a line behind `done` others, which is without its newline, and writes the outcome.
pub fn answer<C: OnCourse, W: Write>(
    alloc: Global,
    protocol: Protocol,
    course: &mut C,
    user: &User,
    done: u32,
    line: &[u8],
    out: &mut W,
) -> Result<(), CliFault>
    requires few { done < most_operations }
    requires room { HasRoom (C.course course.old) }
    ensures { Answered protocol.format (operation_read protocol.vocabulary done line.now) (C.course course.old) (C.course course.new)
        user.now (W.contents out.old) (W.contents out.new) result }
{
    let op = match read_op_in(alloc, protocol.vocabulary, line) {
        Ok(op) => op,
        Err(fault) => return Err(CliFault::of_line(done + 1, fault)),
    };
    let outcome = course.step(alloc, user, &op)?;
    let text = outcome_said(alloc, protocol.format, &op, &outcome)?;
    write_whole(out, text.as_slice())?;
    Ok(())
}
