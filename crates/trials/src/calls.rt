//! Which call the words tell.
use crate::begin::Stopped;
use crate::trial::{Ended, Trial};
use crate::{bytes, checks, operations, paths, texts, trees};
use cg_indexed::indexed::Indexed;
use cg_model::hierarchy::Hierarchy;
use cg_text::tree::read_tree;

/// Prepares a call, makes it, and makes it again where it wanted memory.
pub fn made(tree: &[u8], trial: &mut Trial<'_>) -> Ended {
    match trial.words.next()? {
        "path" => of_path(trial),
        "text" => of_text(tree, trial),
        "bytes" => bytes::reported(tree, trial),
        "new" => trees::made_new(trial),
        "from_rows" => trees::made_of_rows(tree, trial),
        "rows" => of_tree(read_tree(trial.alloc, tree)?, trial),
        "indexed" => {
            let rows = read_tree(trial.alloc, tree)?;
            of_tree(Indexed::from_rows(trial.alloc, rows)?, trial)
        }
        _ => Err(Stopped::BadWords),
    }
}

fn of_path(trial: &mut Trial<'_>) -> Ended {
    match trial.words.next()? {
        "parse" => paths::parsed(trial),
        "try_clone" => paths::cloned(trial),
        "try_prefix" => paths::prefix_made(trial),
        "with_child" => paths::child_made(trial),
        _ => Err(Stopped::BadWords),
    }
}

fn of_text(tree: &[u8], trial: &mut Trial<'_>) -> Ended {
    match trial.words.next()? {
        "read_tree" => texts::tree_read(tree, trial),
        "read_long_tree" => texts::long_tree_read(trial),
        "read_text" => texts::text_read(tree, trial),
        "read_tree_input" => texts::input_read(tree, trial),
        "read_op" => texts::operation_read(trial),
        "read_op_in" => texts::operation_read_in(trial),
        "read_long_op" => texts::long_operation_read(trial),
        "op_text" => texts::operation_written(trial),
        "outcome_text" => texts::outcome_written(tree, trial),
        "answer_text" => texts::answer_written(tree, trial),
        "verdict_text" => texts::verdict_written(tree, trial),
        "fault_text" => texts::fault_written(tree, trial),
        _ => Err(Stopped::BadWords),
    }
}

/// A call on a tree, however it is kept.
fn of_tree<H: Hierarchy + Drop>(tree: H, trial: &mut Trial<'_>) -> Ended {
    match trial.words.next()? {
        "paths" => trees::paths_given(tree, trial),
        "pids" => trees::pids_given(tree, trial),
        "try_clone" => trees::cloned(tree, trial),
        "add" => trees::added(tree, trial),
        "add_process" => trees::process_added(tree, trial),
        "set_place" => trees::process_moved(tree, trial),
        "readings" => trees::read(tree, trial),
        "refusal" => operations::refused(tree, trial),
        "apply" => operations::applied(tree, trial),
        "step" => operations::stepped(tree, trial),
        "start" => operations::started(tree, trial),
        "failed_guard" => checks::guarded(tree, trial),
        "check" => checks::checked(tree, trial),
        "check_all" => checks::all_checked(tree, trial),
        _ => Err(Stopped::BadWords),
    }
}
