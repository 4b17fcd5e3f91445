//! What operations are carried out on: a tree, or a tree of which a subtree is watched.
ghost use Rattle.std.specs.Prelude.{◌≡◌, Ok, IfOk, OnOk, OnErr};
ghost use Rattle.cg_model.specs.Clauses.{first};
ghost use Rattle.cg_model.specs.Bars.{bars};
ghost use Rattle.cg_model.specs.Outcomes.{RefusedBy};
ghost use Rattle.cg_cli.specs.Courses.{Course, HasRoom, state_of, on_course, closing, verdict_status};
ghost use Rattle.cg_cli.specs.Reports.{Reports};

use crate::format::Format;
use crate::replay::protocol::verdict_said;
use crate::report::write_said;
use cg_cgroup::memory::NoMemory;
use cg_cgroup::user::User;
use cg_faults::fault::CliFault;
use cg_model::hierarchy::Hierarchy;
use cg_model::operation::Op;
use cg_model::outcome::Outcome;
use cg_model::verdict::Verdict;
use cg_ops::apply;
use cg_runs::fault::StepFault;
use cg_runs::replay::Replay;
use std::alloc::Global;
use std::io::Write;

/// What operations are carried out on, one after another.
pub trait OnCourse: Drop {
    ghost course: { Self → Course };

    /// Carries out an operation of a user where nothing refuses it.
    fn step(&mut self, alloc: Global, user: &User, op: &Op) -> Result<Outcome, NoMemory>
        requires { HasRoom (course self.old) }
        ensures ok { OnOk result (course self.new ≡ on_course (course self.old) user.now op.now) }
        ensures outcome { IfOk result (λ outcome. RefusedBy outcome (first (bars (state_of (course self.old)) user.now op.now))) }
        ensures err { OnErr result (course self.new ≡ course self.old) };

    /// What is said at the end, and the status.
    fn closing(&self, alloc: Global, format: Format) -> Result<(Vec<u8>, u8), NoMemory>
        ensures { IfOk result (λ said. closing format (course self.now) ≡ record { text = said.0.items; ending = Ok said.1 }) };
}

/// Writes what is said at the end.
pub fn write_closing<C: OnCourse, W: Write>(
    alloc: Global,
    format: Format,
    course: &C,
    out: &mut W,
) -> Result<u8, CliFault>
    ensures { Reports (closing format (C.course course.now)) (W.contents out.old) (W.contents out.new) result }
{
    let said = course.closing(alloc, format)?;
    write_said(out, said)
}

/// A tree, of which a subtree may be watched.
#[derive(Drop)]
pub enum MaybeWatched<H: Hierarchy> {
    Unwatched(H),
    Watched(Replay<H>),
}

impl<H: Hierarchy + Drop> OnCourse for MaybeWatched<H> {
    ghost use Rattle.cg_cli.specs.Courses.{Unwatched as plain, Watched as watched};
    ghost use Rattle.cg_cli.specs.declared.replay.course.MaybeWatched.TheVariants.{Unwatched, Watched};

    ghost course = { elim [ Unwatched tree ↦ plain (H.state tree) | Watched run ↦ watched run ] };

    fn step(&mut self, alloc: Global, user: &User, op: &Op) -> Result<Outcome, NoMemory> {
        match self {
            MaybeWatched::Unwatched(tree) => apply(alloc, tree, user, op),
            MaybeWatched::Watched(run) => match run.step(alloc, user, op) {
                Ok(outcome) => Ok(outcome),
                Err(StepFault::NoMemory) => Err(NoMemory),
                Err(StepFault::TooManySteps) => unreachable!(),
            },
        }
    }

    fn closing(&self, alloc: Global, format: Format) -> Result<(Vec<u8>, u8), NoMemory> {
        match self {
            MaybeWatched::Unwatched(_) => Ok((Vec::new(alloc), 0)),
            MaybeWatched::Watched(run) => {
                let verdict = run.verdict();
                Ok((verdict_said(alloc, format, &verdict)?, status(verdict)))
            }
        }
    }
}

/// The status of a verdict.
fn status(verdict: Verdict) -> u8
    ensures { result ≡ verdict_status verdict }
{
    match verdict {
        Verdict::Kept => 0,
        Verdict::Broken { .. } => 1,
    }
}
