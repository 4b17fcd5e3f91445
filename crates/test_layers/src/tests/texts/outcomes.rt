//! The lines of outcomes: each refusal that each kind of operation can meet.
ghost use Rattle.std.specs.Prelude.{◌≡◌, IfSome, length};
ghost use Rattle.cg_model.specs.declared.outcome.Outcome.{Outcome};
ghost use Rattle.cg_lines.specs.Outcomes.{CanShow};

use cg_cgroup::files::{Controller, EntryName, Limit, LimitFile};
use cg_cgroup::memory::NoMemory;
use cg_cgroup::other_file::OtherFile;
use cg_cgroup::path::Path;
use cg_cgroup::process::Pid;
use cg_cgroup::told::FileText;
use cg_cgroup::user::Mode;
use cg_lines::outcome::outcome_text;
use cg_model::changes::Changes;
use cg_model::operation::Op;
use cg_model::outcome::{Outcome, Refusal};
use std::alloc::Global;
use std::test::Fail;

/// The path `/c0/c01`.
fn place(alloc: Global) -> Option<Path>
    ensures { IfSome result (λ path. length path ≡ 2) }
{
    let path = Path::parse(alloc, "/c0/c01").ok()?;
    if path.depth() == 2 { Some(path) } else { None }
}

/// Whether a refusal of an operation is shown by this line.
fn shows(alloc: Global, op: &Op, refusal: Refusal, line: &str) -> Result<bool, NoMemory>
    requires { CanShow op.now (Outcome.Refused refusal) }
{
    let text = outcome_text(alloc, op, &Outcome::Refused(refusal))?;
    Ok(text.as_slice() == line.as_bytes())
}

/// Fails where a refusal that an operation can meet is shown by another line.
macro_rules! expect_lines {
    ($rt:expr, $alloc:expr, $op:expr; $($refusal:expr => $line:expr,)*) => {
        {
            let op = $op;
            $(assert!($rt; shows($alloc, &op, $refusal, $line)?);)*
        }
    };
}

#[test]
fn what_is_carried_out(rt: HostRuntime) -> Result<(), Fail> {
    let pid = Pid::new(1).ok_or("a PID")?;
    let text = outcome_text(rt.alloc(), &Op::Exit { pid }, &Outcome::Done)?;
    assert_eq!(rt; text.as_slice(), b"ok\n".as_slice());
    Ok(())
}

#[test]
fn refusals_of_moves_and_controls(rt: HostRuntime) -> Result<(), Fail> {
    let alloc = rt.alloc();
    let pid = Pid::new(4194303).ok_or("a PID")?;
    let to = place(alloc).ok_or("a path")?;
    expect_lines!(rt, alloc, Op::Move { pid, to };
        Refusal::NoSuchCgroup { len: 2 } => "refused no-such-cgroup /c0/c01\n",
        Refusal::NoAccess { len: 0, entry: EntryName::Procs } => "refused no-access / cgroup.procs\n",
        Refusal::NoSuchProcess { pid } => "refused no-such-process 4194303\n",
        Refusal::InternalProcess { len: 2 } => "refused internal-process /c0/c01\n",
    );
    let at = place(alloc).ok_or("a path")?;
    let changes = Changes::new(alloc);
    expect_lines!(rt, alloc, Op::Control { at, changes };
        Refusal::NoSuchCgroup { len: 1 } => "refused no-such-cgroup /c0\n",
        Refusal::NoAccess { len: 2, entry: EntryName::SubtreeControl }
            => "refused no-access /c0/c01 cgroup.subtree_control\n",
        Refusal::NotAvailable { controller: Controller::Pids } => "refused not-available pids\n",
        Refusal::ChildUses { controller: Controller::Cpu } => "refused child-uses cpu\n",
        Refusal::InternalProcess { len: 1 } => "refused internal-process /c0\n",
    );
    Ok(())
}

#[test]
fn refusals_of_directories(rt: HostRuntime) -> Result<(), Fail> {
    let alloc = rt.alloc();
    let path = place(alloc).ok_or("a path")?;
    expect_lines!(rt, alloc, Op::Mkdir { path };
        Refusal::Exists => "refused exists /c0/c01\n",
        Refusal::NoSuchCgroup { len: 1 } => "refused no-such-cgroup /c0\n",
        Refusal::NoAccess { len: 1, entry: EntryName::Dir } => "refused no-access /c0 dir\n",
        Refusal::DescendantLimit { len: 1 } => "refused descendant-limit /c0\n",
        Refusal::DepthLimit { len: 0 } => "refused depth-limit /\n",
    );
    let path = place(alloc).ok_or("a path")?;
    expect_lines!(rt, alloc, Op::Rmdir { path };
        Refusal::RootCgroup => "refused root-cgroup\n",
        Refusal::NoSuchCgroup { len: 2 } => "refused no-such-cgroup /c0/c01\n",
        Refusal::NoAccess { len: 1, entry: EntryName::Dir } => "refused no-access /c0 dir\n",
        Refusal::HasChildren => "refused has-children /c0/c01\n",
        Refusal::HasProcesses => "refused has-processes /c0/c01\n",
    );
    Ok(())
}

#[test]
fn refusals_at_files(rt: HostRuntime) -> Result<(), Fail> {
    let alloc = rt.alloc();
    let (file, value) = (LimitFile::CpuWeight, Limit::At(0));
    let at = place(alloc).ok_or("a path")?;
    expect_lines!(rt, alloc, Op::Set { at, file, value };
        Refusal::NoSuchCgroup { len: 2 } => "refused no-such-cgroup /c0/c01\n",
        Refusal::NoSuchFile { entry: EntryName::File(file) } => "refused no-such-file /c0/c01 cpu.weight\n",
        Refusal::NoAccess { len: 2, entry: EntryName::File(file) } => "refused no-access /c0/c01 cpu.weight\n",
        Refusal::BadValue { file } => "refused bad-value cpu.weight\n",
    );
    let file = LimitFile::MemoryMax;
    let (entry, mode) = (EntryName::File(file), Mode::new(0o640).ok_or("a mode")?);
    let at = place(alloc).ok_or("a path")?;
    expect_lines!(rt, alloc, Op::Chmod { at, entry, mode };
        Refusal::NoSuchCgroup { len: 2 } => "refused no-such-cgroup /c0/c01\n",
        Refusal::NoSuchFile { entry } => "refused no-such-file /c0/c01 memory.max\n",
        Refusal::NotOwner { entry } => "refused not-owner /c0/c01 memory.max\n",
    );
    Ok(())
}

#[test]
fn refusals_at_files_beyond(rt: HostRuntime) -> Result<(), Fail> {
    let alloc = rt.alloc();
    let file = OtherFile::IoMax;
    let text = String::from_str(alloc, "max")?;
    let (entry, value) = (EntryName::Other(file), FileText { text });
    let at = place(alloc).ok_or("a path")?;
    expect_lines!(rt, alloc, Op::SetOther { at, file, value };
        Refusal::NoSuchCgroup { len: 2 } => "refused no-such-cgroup /c0/c01\n",
        Refusal::NoSuchFile { entry } => "refused no-such-file /c0/c01 io.max\n",
        Refusal::NoAccess { len: 2, entry } => "refused no-access /c0/c01 io.max\n",
    );
    let mode = Mode::new(0o640).ok_or("a mode")?;
    let at = place(alloc).ok_or("a path")?;
    expect_lines!(rt, alloc, Op::Chmod { at, entry, mode };
        Refusal::NoSuchFile { entry } => "refused no-such-file /c0/c01 io.max\n",
        Refusal::NotOwner { entry } => "refused not-owner /c0/c01 io.max\n",
    );
    Ok(())
}

#[test]
fn refusals_of_processes(rt: HostRuntime) -> Result<(), Fail> {
    let alloc = rt.alloc();
    let parent = Pid::new(11).ok_or("a PID")?;
    let child = Pid::new(4194303).ok_or("a PID")?;
    expect_lines!(rt, alloc, Op::Fork { parent, child };
        Refusal::NoSuchProcess { pid: parent } => "refused no-such-process 11\n",
        Refusal::NotYours { pid: parent } => "refused not-yours 11\n",
        Refusal::PidUsed { pid: child } => "refused pid-used 4194303\n",
    );
    expect_lines!(rt, alloc, Op::Exit { pid: child };
        Refusal::NoSuchProcess { pid: child } => "refused no-such-process 4194303\n",
        Refusal::NotYours { pid: child } => "refused not-yours 4194303\n",
    );
    Ok(())
}
