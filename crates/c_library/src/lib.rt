//! The program for C: include/zirofen.h says what a caller keeps.
#![tactic(auto)]

ghost use Rattle.std.specs.Prelude.{◌≡◌, ℕ, ◌++◌, List, length, take, drop, Some};
ghost use Rattle.commands.specs.Yes.{CheckMeans, AuditMeans, EverybodyMeans};
ghost use Rattle.library.specs.Calls.{words_in, Says};

use library::call::call;
use std::alloc::Global;

/// Runs the program, as `library::call::call` does.
#[unsafe(no_mangle)]
pub extern "C" fn zirofen_call(
    alloc: Global,
    words: &[u8],
    tree: &[u8],
    other: &[u8],
    report: &mut [u8],
    wanted: &mut usize,
) -> u8
    ensures check { CheckMeans (words_in words.now) (λ _. Some other.now) (Some tree.now) result }
    ensures audit { AuditMeans (words_in words.now) (λ _. Some other.now) (Some tree.now) result }
    ensures everybody { EverybodyMeans (words_in words.now) (λ _. Some other.now) (Some tree.now) result }
    ensures report { (text : List ℕ) × Says (words_in words.now) (λ _. Some other.now) (Some tree.now) result text
        × (wanted.new ≡ length text) × (report.new ≡ take (length report.old) text ++ drop (length text) report.old) }
{
    call(alloc, words, tree, other, report, wanted)
}
