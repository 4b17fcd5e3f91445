//! What an input is that holds no text, or none in UTF-8.

/// What bytes are that nobody wrote as a tree or as operations; nothing where they may be.
pub(crate) fn kind_said(bytes: &[u8]) -> Option<&'static str> {
    if bytes.starts_with(&[0x1f, 0x8b]) {
        Some("this is packed by gzip: unpack it first, as `gunzip -c FILE` does")
    } else if is_utf16(bytes) {
        Some("this is UTF-16: write it in UTF-8, as `iconv -f UTF-16 -t UTF-8 FILE` does")
    } else {
        None
    }
}

/// Whether bytes begin with the mark of UTF-16, or with a character of ASCII in it.
fn is_utf16(bytes: &[u8]) -> bool {
    match bytes {
        [0xff, 0xfe, ..] | [0xfe, 0xff, ..] => true,
        [first, second, ..] => (*first == 0) != (*second == 0),
        _ => false,
    }
}

/// Whether there is nothing but white space.
pub(crate) fn is_blank(bytes: &[u8]) -> bool {
    bytes
        .iter()
        .all(|byte| matches!(*byte, b' ' | b'\t' | b'\r' | b'\n'))
}
