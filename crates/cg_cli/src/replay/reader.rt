//! Operation lines that a reader gives.
ghost use Rattle.std.specs.Prelude.{◌≡◌, ◌+◌, ◌≤◌, OnOk, IfOk, IfErr, Err};
ghost use Rattle.std.specs.Option.{option_map};
ghost use Rattle.cg_format.specs.Readings.{OnText, vocabulary_in};
ghost use Rattle.cg_cli.specs.Arguments.{user_read};
ghost use Rattle.cg_cli.specs.Courses.{HasMade, came_to};
ghost use Rattle.cg_cli.specs.ReplayFormats.{in_format};
ghost use Rattle.cg_cli.specs.Replays.{closed, closed_in, lines_report, operations_report};
ghost use Rattle.cg_cli.specs.Replaying.{standing_of, from_start, coming, most_taken, whole, IsWaiting, ReplaysFrom, ReadOn};

use super::course_of;
use crate::arguments::{UserIds, read_user};
use crate::format::Format;
use crate::replay::course::{OnCourse, write_closing};
use crate::replay::protocol::Protocol;
use crate::replay::run::Run;
use cg_cgroup::user::User;
use cg_faults::fault::CliFault;
use std::alloc::Global;
use std::io::{BufRead, Write};

/// How often a reader is asked at most: for each byte of 65536 lines of 8193 bytes, and once more.
const MOST_ASKS: u32 = 536_936_449;

/// Replays operations that a reader gives, as `replay_bytes` does with the same bytes. At most one line is held.
///
/// # Errors
/// Those of `replay_bytes`, and `Read` where the reader failed, which isn't asked again: the lines of the operations that
/// it gave before are written.
pub fn replay_from<R: BufRead, W: Write>(
    alloc: Global,
    tree: &[u8],
    user: UserIds<'_>,
    subtree: Option<&str>,
    ops: &mut R,
    out: &mut W,
) -> Result<u8, CliFault>
    ensures replays { OnText tree.now (λ read. ReplaysFrom closed
        (lines_report (vocabulary_in tree.now) read user.entry.uid user.entry.gids.now (option_map (λ text. text.now) subtree.entry))
        (R.remaining ops.old) (R.remaining ops.new) (W.contents out.old) (W.contents out.new) result) }
    ensures user { IfErr (user_read user.entry.uid user.entry.gids.now) (λ fault. result ≡ Err fault) }
{
    replay_from_in(alloc, Format::Lines, tree, user, subtree, ops, out)
}

/// The same, written as a format says.
pub fn replay_from_in<R: BufRead, W: Write>(
    alloc: Global,
    format: Format,
    tree: &[u8],
    user: UserIds<'_>,
    subtree: Option<&str>,
    ops: &mut R,
    out: &mut W,
) -> Result<u8, CliFault>
    ensures replays { OnText tree.now (λ read. ReplaysFrom (closed_in format)
        (operations_report (in_format format (vocabulary_in tree.now)) read user.entry.uid user.entry.gids.now
        (option_map (λ text. text.now) subtree.entry))
        (R.remaining ops.old) (R.remaining ops.new) (W.contents out.old) (W.contents out.new) result) }
    ensures user { IfErr (user_read user.entry.uid user.entry.gids.now) (λ fault. result ≡ Err fault) }
{
    let user = read_user(user)?;
    let (vocabulary, course) = course_of(alloc, tree, subtree)?;
    let protocol = Protocol { vocabulary, format };
    reader_closed(alloc, protocol, course, user, ops, out)
}

/// A whole replay over the bytes of a reader, and what is said at its end.
fn reader_closed<C: OnCourse, R: BufRead, W: Write>(
    alloc: Global,
    protocol: Protocol,
    course: C,
    user: User,
    ops: &mut R,
    out: &mut W,
) -> Result<u8, CliFault>
    requires { HasMade 0 (C.course course) }
    ensures { ReplaysFrom (closed_in protocol.format) (coming (from_start protocol (C.course course) user))
        (R.remaining ops.old) (R.remaining ops.new) (W.contents out.old) (W.contents out.new) result }
{
    let course = replay_reader(alloc, Run::new(alloc, protocol, course, user), ops, out)?;
    write_closing(alloc, protocol.format, &course, out)
}

/// Goes on with a replay over the bytes of a reader.
fn replay_reader<C: OnCourse, R: BufRead, W: Write>(
    alloc: Global,
    mut run: Run<C>,
    ops: &mut R,
    out: &mut W,
) -> Result<C, CliFault>
    requires { IsWaiting (standing_of C.course run) }
    ensures { ReplaysFrom whole (coming (standing_of C.course run))
        (R.remaining ops.old) (R.remaining ops.new) (W.contents out.old) (W.contents out.new) (came_to C.course result) }
{
    for _asked in 0..MOST_ASKS {
        if read_on(alloc, &mut run, ops, out)? == 0 {
            return run.end();
        }
    }
    unreachable!()
}

/// Feeds bytes of the next piece that a reader shows. Answers how many; none at the end.
fn read_on<C: OnCourse, R: BufRead, W: Write>(
    alloc: Global,
    run: &mut Run<C>,
    ops: &mut R,
    out: &mut W,
) -> Result<usize, CliFault>
    requires { IsWaiting (standing_of C.course run.old) }
    ensures read { ReadOn (coming (standing_of C.course run.old)) (coming (standing_of C.course run.new))
        (R.remaining ops.old) (R.remaining ops.new) (W.contents out.old) (W.contents out.new) result }
    ensures waiting { OnOk result (IsWaiting (standing_of C.course run.new)) }
    ensures taken { IfOk result (λ taken. most_taken (standing_of C.course run.old) + taken ≤ most_taken (standing_of C.course run.new)) }
{
    let piece = match ops.fill_buf() {
        Ok(piece) => piece,
        Err(error) => return Err(CliFault::from(error)),
    };
    if piece.is_empty() {
        return Ok(0);
    }
    let taken = run.feed(alloc, piece, out)?;
    ops.consume(taken);
    Ok(taken)
}
