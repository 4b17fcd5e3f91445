//! The texts that values of limit files beyond `LimitFile` are, line by line.
ghost use Rattle.std.specs.Prelude.{◌≡◌, option_copied};
ghost use Rattle.std.specs.List.{list_all};
ghost use Rattle.cg_cgroup.specs.Values.{is_graphic, is_value_word, is_one_line, has_value_line, device_in};

/// The greatest number of bytes of a device's or a resource's name.
const LONGEST_DEVICE: usize = 255;

/// Whether a byte is printable and no space.
fn is_graphic(byte: u8) -> bool
    ensures { result ≡ is_graphic byte }
{
    byte.is_ascii_graphic()
}

fn are_graphic(bytes: &[u8]) -> bool
    ensures { result ≡ list_all is_graphic bytes.now }
{
    bytes.iter().all(|byte| is_graphic(*byte))
}

fn is_value_word(word: &str) -> bool
    ensures { result ≡ is_value_word word.now }
{
    0 < word.len() && are_graphic(word.as_bytes())
}

/// Whether a text is printable words, one or more, with one space between them.
pub fn is_one_line(text: &str) -> bool
    ensures { result ≡ is_one_line text.now }
{
    text.split(' ').all(|word| is_value_word(word))
}

/// Whether a line is one of a value's.
pub fn has_value_line(value: &str, line: &str) -> bool
    ensures { result ≡ has_value_line value.now line.now }
{
    value.split('\n').any(|own| own == line)
}

/// The device or the resource whose line a value's first one is: its first word, where others are behind it.
pub fn device_in(value: &str) -> Option<&str>
    ensures { option_copied result ≡ device_in value.now }
{
    let (word, _) = value.split_once(' ')?;
    if is_value_word(word) && word.len() <= LONGEST_DEVICE {
        Some(word)
    } else {
        None
    }
}
