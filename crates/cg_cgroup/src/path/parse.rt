//! Paths made from texts and names.
ghost use Rattle.std.specs.Prelude.{◌≡◌, ◌≢◌, ◌≤◌, ◌++◌, ◌∷◌, [], false, length, take, IfOk, Some, None, MatchResult};
ghost use Rattle.cg_cgroup.specs.Paths.{Names, IsPath, is_path, path_text, path_at};

use crate::path::names::{are_names, ends_of, is_name};
use crate::path::{Path, PathFault};
use std::alloc::Global;

/// The greatest number of bytes of a path's text.
const LONGEST_TEXT: usize = 4095;

impl Path {
    /// The path of a text: `/`, or a slash and a name once or more, of at most 4095 bytes. `BadPath` takes no memory.
    pub fn parse(alloc: Global, text: &str) -> Result<Path, PathFault>
        ensures ok { IfOk result (λ path. IsPath path × (path_text path ≡ text.now)) }
        ensures bad { result ≡ Err PathFault.BadPath
            → (path : Names) → IsPath path → path_text path ≢ text.now }
        ensures none { path_at text.now ≡ None → result ≡ Err PathFault.BadPath }
        ensures value { MatchResult
            result
            (λ path. path_at text.now ≡ Some path)
            (λ fault. fault ≡ PathFault.BadPath → path_at text.now ≡ None) }
    {
        let Some(names) = text.strip_prefix('/') else {
            return Err(PathFault::BadPath);
        };
        if names.is_empty() {
            return Ok(Path::root(alloc));
        }
        if text.len() > LONGEST_TEXT || !are_names(names) {
            return Err(PathFault::BadPath);
        }
        let ends = ends_of(alloc, names)?;
        let text = String::from_str(alloc, text)?;
        Ok(Path { text, ends })
    }

    /// The path of the first `len` names and then `name`. `BadPath`, which takes no memory, where that is no path.
    pub fn with_child(&self, alloc: Global, len: usize, name: &str) -> Result<Path, PathFault>
        requires { len ≤ length self.now }
        ensures ok { IfOk result (λ path. path ≡ take len self.now ++ name.now ∷ []) }
        ensures path { IfOk result IsPath }
        ensures bad { result ≡ Err PathFault.BadPath
            → is_path (take len self.now ++ name.now ∷ []) ≡ false }
    {
        let parent = self.front(len);
        let end = parent.len() + 1 + name.len();
        if end > LONGEST_TEXT || !is_name(name.as_bytes()) {
            return Err(PathFault::BadPath);
        }
        let text = format!(in alloc; "{parent}/{name}")?;
        let mut ends = Vec::with_capacity(alloc, len + 1)?;
        ends.extend_from_slice(&self.ends.as_slice()[..len])?;
        ends.push(end as u16)?;
        Ok(Path { text, ends })
    }
}
