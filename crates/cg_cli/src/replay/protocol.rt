//! How operation lines are read, and how they are answered.
ghost use Rattle.std.specs.Prelude.{◌≡◌, IfOk};
ghost use Rattle.cg_cli.specs.ReplayFormats.{outcome_in, verdict_in};
ghost use Rattle.cg_lines.specs.Outcomes.{CanShow};

use crate::format::Format;
use cg_cgroup::files::Vocabulary;
use cg_cgroup::memory::NoMemory;
use cg_json::outcome::outcome_json;
use cg_json::verdict::verdict_json;
use cg_lines::outcome::outcome_text;
use cg_model::operation::Op;
use cg_model::outcome::Outcome;
use cg_model::verdict::Verdict;
use cg_report::verdict::verdict_text;
use std::alloc::Global;

/// Which controllers operation lines name, and how an answer to one is written.
#[derive(Clone, Copy)]
pub struct Protocol {
    pub vocabulary: Vocabulary,
    pub format: Format,
}

/// What is written of an operation's outcome.
pub fn outcome_said(
    alloc: Global,
    format: Format,
    op: &Op,
    outcome: &Outcome,
) -> Result<Vec<u8>, NoMemory>
    requires { CanShow op.now outcome.now }
    ensures { IfOk result (λ text. text.items ≡ outcome_in format op.now outcome.now) }
{
    match format {
        Format::Lines => outcome_text(alloc, op, outcome),
        Format::Json => outcome_json(alloc, op, outcome),
    }
}

/// What is written of a verdict.
pub fn verdict_said(alloc: Global, format: Format, verdict: &Verdict) -> Result<Vec<u8>, NoMemory>
    ensures { IfOk result (λ text. text.items ≡ verdict_in format verdict.now) }
{
    match format {
        Format::Lines => verdict_text(alloc, verdict),
        Format::Json => verdict_json(alloc, verdict),
    }
}
