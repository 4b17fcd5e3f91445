//! Paths made from a path.
ghost use Rattle.std.specs.Prelude.{◌≡◌, [], ◌≤◌, length, take, IfOk};

use crate::memory::NoMemory;
use crate::path::Path;
use std::alloc::Global;

impl Path {
    /// The root's path. It takes no memory.
    pub fn root(alloc: Global) -> Path
        ensures { result ≡ [] }
    {
        Path {
            text: String::new(alloc),
            ends: Vec::new(alloc),
        }
    }

    /// The path of the first `len` names.
    pub fn try_prefix(&self, alloc: Global, len: usize) -> Result<Path, NoMemory>
        requires { len ≤ length self.now }
        ensures { IfOk result (λ path. path ≡ take len self.now) }
    {
        let text = String::from_str(alloc, self.front(len))?;
        let ends = Vec::from_slice(alloc, &self.ends.as_slice()[..len])?;
        Ok(Path { text, ends })
    }

    /// An equal path.
    pub fn try_clone(&self, alloc: Global) -> Result<Path, NoMemory>
        ensures { IfOk result (λ path. path ≡ self.now) }
    {
        self.try_prefix(alloc, self.depth())
    }
}
