//! The line of a verdict.
ghost use Rattle.std.specs.Prelude.{◌≡◌, IfOk, string_bytes};
ghost use Rattle.cg_report.specs.VerdictLines.{clause_text, verdict_text};

use cg_cgroup::memory::NoMemory;
use cg_model::verdict::{Clause, Verdict};
use std::alloc::{AllocError, Global};

/// The line of a verdict, with its newline: `kept`, or `broken`, after how many steps, and what. Fails where memory is
/// wanted.
pub fn verdict_text(alloc: Global, verdict: &Verdict) -> Result<Vec<u8>, NoMemory>
    ensures { IfOk result (λ text. text.items ≡ verdict_text verdict.now) }
{
    let line = match *verdict {
        Verdict::Kept => String::from_str(alloc, "kept\n")?,
        Verdict::Broken { after, clause } => {
            let what = clause_text(alloc, clause)?;
            format!(in alloc; "broken {after} {what}\n")?
        }
    };
    Ok(line.into_bytes())
}

fn clause_text(alloc: Global, clause: Clause) -> Result<String, AllocError>
    ensures { IfOk result (λ text. string_bytes text ≡ clause_text clause) }
{
    match clause {
        Clause::Gone => String::from_str(alloc, "gone"),
        Clause::Crossed(pid) => format!(in alloc; "crossed {}", pid.get()),
        Clause::Limits => String::from_str(alloc, "limits"),
        Clause::Descendants => String::from_str(alloc, "descendants"),
        Clause::Depth => String::from_str(alloc, "depth"),
    }
}
