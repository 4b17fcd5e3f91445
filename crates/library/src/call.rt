//! A call of the program.
ghost use Rattle.std.specs.Prelude.{◌≡◌, ◌≢◌, ◌⊎◌, ◌++◌, ℕ, List, length, take, drop, Some, IfSome};
ghost use Rattle.commands.specs.Yes.{CheckMeans, AuditMeans, EverybodyMeans};
ghost use Rattle.library.specs.Calls.{words_in, memory_line, Says};

use crate::memory::{OneText, Page};
use crate::version::VERSION;
use crate::words::words_of;
use commands::program::{Ended, run_program};
use std::alloc::Global;

/// The status of a fault.
const FAULT: u8 = 3;

/// What is said where there was no memory for anything else.
const NO_MEMORY: &[u8] = b"fault: memory\n";

/// Runs the program on words, one a line, with the text of a tree as its standard input. Each file that they name has the other text.
///
/// It gives the program's status, how many bytes the program writes to standard output, or where the status is 3 to standard error, and
/// of these as many as there is room for. Where the words ask `check` or `audit`, status 0 says that the text that was read tells of a
/// machine in which what they name is contained against whom they name, or where they ask with `--everybody` against everybody but root.
pub fn call(
    alloc: Global,
    words: &[u8],
    tree: &[u8],
    other: &[u8],
    report: &mut [u8],
    wanted: &mut usize,
) -> u8
    ensures check { CheckMeans (words_in words.now) (λ _. Some other.now) (Some tree.now) result }
    ensures audit { AuditMeans (words_in words.now) (λ _. Some other.now) (Some tree.now) result }
    ensures everybody { EverybodyMeans (words_in words.now) (λ _. Some other.now) (Some tree.now) result }
    ensures report { (text : List ℕ) × Says (words_in words.now) (λ _. Some other.now) (Some tree.now) result text
        × (wanted.new ≡ length text) × (report.new ≡ take (length report.old) text ++ drop (length text) report.old) }
{
    let words = words_of(alloc, words);
    let files = OneText { text: other };
    let out = Page::new(alloc);
    let ended = run_program(alloc, VERSION, words, &files, tree, out, Vec::new(alloc));
    let text = text_of(&ended);
    *wanted = text.len();
    copy_front(text, report);
    ended.status
}

/// What was written that a status is about.
fn text_of(ended: &Ended<Page, Vec<u8>>) -> &[u8]
    ensures answered { ended.now.status ≢ FAULT → IfSome ended.now.out (λ page. result.now ≡ page.bytes.items) }
    ensures failed { ended.now.status ≡ FAULT → (result.now ≡ ended.now.errors.items) ⊎ (result.now ≡ memory_line) }
{
    match &ended.out {
        Some(page) if ended.status != FAULT => page.bytes.as_slice(),
        Some(page) if !page.is_cut && !ended.errors.is_empty() => ended.errors.as_slice(),
        _ => NO_MEMORY,
    }
}

/// Copies what there is room for.
fn copy_front(from: &[u8], to: &mut [u8])
    ensures { to.new ≡ take (length to.old) from.now ++ drop (length from.now) to.old }
{
    let count = from.len().min(to.len());
    to[..count].copy_from_slice(&from[..count]);
}
