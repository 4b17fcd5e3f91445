//! The one core of both replays: it is fed pieces of the operations' bytes.
ghost use Rattle.std.specs.Prelude.{◌≡◌, ◌+◌, ◌<◌, ◌≤◌, OnOk, IfOk, length};
ghost use Rattle.cg_cli.specs.Courses.{came_to};
ghost use Rattle.cg_cli.specs.Replaying.{standing_of, from_start, coming, ending, most_taken, IsWaiting, Fed};

use crate::replay::course::OnCourse;
use crate::replay::line::{MOST_OPERATIONS, answer, line_end};
use crate::replay::protocol::Protocol;
use cg_cgroup::user::User;
use cg_faults::fault::CliFault;
use cg_lines::lines::{LONGEST_LINE, LineFault};
use std::alloc::Global;
use std::io::Write;

/// A replay between two pieces of its input.
#[derive(Drop)]
pub struct Run<C> {
    /// What the operations so far have led to.
    course: C,
    user: User,
    protocol: Protocol,
    /// The bytes of the line that is begun.
    line: Vec<u8>,
    /// How many lines were answered.
    done: u32,
}

impl<C: OnCourse> Run<C> {
    /// The replay before its first byte.
    pub fn new(alloc: Global, protocol: Protocol, course: C, user: User) -> Run<C>
        ensures { standing_of C.course result ≡ from_start protocol (C.course course) user }
    {
        Run {
            course,
            user,
            protocol,
            line: Vec::new(alloc),
            done: 0,
        }
    }

    /// Takes bytes of a piece: a line's, its newline too, which is then answered, or all where no newline is among them.
    /// Answers how many it took.
    pub fn feed<W: Write>(
        &mut self,
        alloc: Global,
        piece: &[u8],
        out: &mut W,
    ) -> Result<usize, CliFault>
        requires waiting { IsWaiting (standing_of C.course self.old) }
        requires some { 0 < length piece.now }
        ensures fed { Fed (coming (standing_of C.course self.old)) (coming (standing_of C.course self.new)) piece.now
            (W.contents out.old) (W.contents out.new) result }
        ensures waiting { OnOk result (IsWaiting (standing_of C.course self.new)) }
        ensures some { IfOk result (λ taken. 0 < taken) }
        ensures taken { IfOk result (λ taken. most_taken (standing_of C.course self.old) + taken
            ≤ most_taken (standing_of C.course self.new)) }
    {
        if self.done >= MOST_OPERATIONS {
            return Err(CliFault::TooManySteps);
        }
        let end = line_end(piece);
        if self.line.len() + end > LONGEST_LINE {
            return Err(CliFault::of_line(self.done + 1, LineFault::TooLong));
        }
        self.line.extend_from_slice(&piece[..end])?;
        if end == piece.len() {
            return Ok(end);
        }
        answer(
            alloc,
            self.protocol,
            &mut self.course,
            &self.user,
            self.done,
            self.line.as_slice(),
            out,
        )?;
        self.line.clear();
        self.done += 1;
        Ok(end + 1)
    }

    /// What the operations led to, or the fault of a line without its newline.
    pub fn end(self) -> Result<C, CliFault>
        requires { IsWaiting (standing_of C.course self) }
        ensures { came_to C.course result ≡ ending (standing_of C.course self) }
    {
        if self.line.is_empty() {
            return Ok(self.course);
        }
        Err(CliFault::of_line(self.done + 1, LineFault::Cut))
    }
}
