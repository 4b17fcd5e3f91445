//! Whether a text says at its beginning that it may be large.
ghost use Rattle.std.specs.Prelude.{◌≡◌, Bool, fold, take, true};
ghost use Rattle.std.specs.Option.{option_map};
ghost use Rattle.cg_cgroup.specs.Files.{all_controllers};
ghost use Rattle.cg_format.specs.TreeTexts.{behind_name, past_name, ends_in_format, says_large, longest_text};

use cg_cgroup::files::Controller;

/// The largest number of bytes of a tree text that doesn't say that it is large.
pub const LONGEST_TEXT: usize = 16777216;

/// The largest number of bytes of one that does.
pub const LONGEST_LARGE_TEXT: usize = 67108864;

/// What is behind the name of a controller in quotes, and behind the comma and the space that part it from another before it.
fn behind_name(is_first: bool, controller: Controller, text: &[u8]) -> Option<&[u8]>
    ensures { option_map (λ rest. rest.now) result ≡ behind_name is_first controller text.now }
{
    let parted = if is_first {
        text
    } else {
        text.strip_prefix(b", ")?
    };
    parted
        .strip_prefix(b"\"")?
        .strip_prefix(controller.name().as_bytes())?
        .strip_prefix(b"\"")
}

/// What is behind names of controllers in their order.
fn behind_names(text: &[u8]) -> &[u8]
    ensures { result.now ≡ (fold past_name (true, text.now) all_controllers).1 }
{
    let mut is_first = true;
    let mut rest = text;
    for controller in Controller::ALL {
        if let Some(behind) = behind_name(is_first, controller, rest) {
            is_first = false;
            rest = behind;
        }
    }
    rest
}

/// Whether names of controllers and the end of their array stand here, and then the line of the format.
#[tactic(auto, unfolding(crate::specs::TreeTexts::ends_in_format))]
fn ends_in_format(names: &[u8]) -> bool
    ensures { result ≡ ends_in_format names.now }
{
    behind_names(names)
        .strip_prefix(b"]\nformat = 4\n")
        .is_some()
}

/// Whether a text says in its first line, or behind the line of its controllers, that it is of format 4, and may be large.
#[tactic(auto, unfolding(crate::specs::TreeTexts::says_large))]
pub fn says_large(text: &[u8]) -> bool
    ensures { result ≡ says_large text.now }
{
    if text.strip_prefix(b"format = 4\n").is_some() {
        return true;
    }
    match text.strip_prefix(b"controllers = [") {
        Some(names) => ends_in_format(names),
        None => false,
    }
}

/// How many bytes hold each beginning that says that a text is large.
const BEGINNING: usize = 128;

fn beginning(text: &[u8]) -> &[u8]
    ensures { result.now ≡ take 128 text.now }
{
    if text.len() < BEGINNING {
        return text;
    }
    &text[..BEGINNING]
}

/// The largest number of bytes of a tree text, by how it begins.
pub fn longest_text(text: &[u8]) -> usize
    ensures { result ≡ longest_text text.now }
{
    if says_large(beginning(text)) {
        LONGEST_LARGE_TEXT
    } else {
        LONGEST_TEXT
    }
}
