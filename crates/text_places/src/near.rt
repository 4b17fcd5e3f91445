//! The nearest of some names.
ghost use Rattle.std.specs.Prelude.{◌≡◌, ◌+◌, ◌<◌, ◌≤◌, Bool, length, map, string_bytes, All, Contains, IfOk, IfSome, IfNone, MatchOption};
ghost use Rattle.text_places.specs.Nearest.{is_comparable, farthest, distance, IsMissing};

use std::alloc::{AllocError, Global};
use strsim::osa_distance;

/// How many bytes a name has at most that is looked for among others.
const LONGEST: usize = 128;

/// How many letters are changed, added, left out or exchanged at most: one, and two of seven letters or more.
const FARTHEST: usize = 2;

/// A name that isn't there, and the nearest of those that are.
#[derive(Debug, Drop)]
pub struct Missing {
    pub name: String,
    /// The nearest, where one is near.
    pub nearest: Option<String>,
}

impl Missing {
    /// A name, and the nearest of some names.
    pub fn among(alloc: Global, name: &str, names: &[&str]) -> Result<Missing, AllocError>
        ensures { IfOk result (λ missing. IsMissing name.now (map (λ other. other.now) names.now) missing) }
    {
        let nearest = match nearest_of(alloc, name, names)? {
            Some(near) => Some(String::from_str(alloc, near)?),
            None => None,
        };
        Ok(Missing {
            name: String::from_str(alloc, name)?,
            nearest,
        })
    }
}

/// The nearest of these names, and of those that are as near the first; nothing where none is near.
pub fn nearest_of<'a>(
    alloc: Global,
    written: &str,
    names: &[&'a str],
) -> Result<Option<&'a str>, AllocError>
    ensures one { IfOk result (λ found. IfSome found (λ name. Contains names.now name)) }
    ensures near { IfOk result (λ found. IfSome found (λ name. distance written.now name.now ≤ farthest written.now)) }
    ensures nearest { IfOk result (λ found. IfSome found (λ name.
        All (λ other. distance written.now name.now ≤ distance written.now other.now) names.now)) }
    ensures none { IfOk result (λ found. IfNone found
        (All (λ other. farthest written.now < distance written.now other.now) names.now)) }
{
    let mut nearest = None;
    let mut below = farthest(written) + 1;
    for name in names {
        let distance = distance(alloc, written, name)?;
        if distance < below {
            nearest = Some(*name);
            below = distance;
        }
    }
    Ok(nearest)
}

/// How far a name may be.
fn farthest(written: &str) -> usize
    ensures { result ≡ farthest written.now }
{
    FARTHEST.min((written.len() + 1) / 4)
}

/// How far a name is from what was written.
fn distance(alloc: Global, written: &str, name: &str) -> Result<usize, AllocError>
    ensures { IfOk result (λ found. found ≡ distance written.now name.now) }
{
    if is_comparable(written, name) {
        osa_distance(alloc, written, name)
    } else {
        Ok(FARTHEST + 1)
    }
}

/// Whether a name may be near enough by its length.
fn is_comparable(written: &str, name: &str) -> bool
    ensures { result ≡ is_comparable written.now name.now }
{
    let (long, other) = (written.len(), name.len());
    long <= LONGEST && long <= other + FARTHEST && other <= long + FARTHEST
}
