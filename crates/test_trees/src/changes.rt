//! Texts that differ from others at a few places.
use std::alloc::Global;
use std::str::from_utf8;
use std::test::Fail;

/// A text in which the first of each pair, where it stands first, is changed to the second, one pair after another.
pub fn changed(alloc: Global, text: &[u8], changes: &[(&str, &str)]) -> Result<String, Fail> {
    let mut text = String::from_str(alloc, from_utf8(text)?)?;
    for (old, new) in changes {
        let (before, after) = text
            .as_str()
            .split_once(*old)
            .ok_or("a part that isn't there")?;
        text = format!(in alloc; "{before}{new}{after}")?;
    }
    Ok(text)
}
