//! Beginnings of tree texts, which say whether one may be large.
use cg_format::large::{LONGEST_LARGE_TEXT, LONGEST_TEXT, longest_text, says_large};
use std::alloc::{AllocError, Global};
use std::process::Abort;
use std::test::Fail;

/// The controllers in their order.
const NAMES: [&str; 9] = [
    "cpuset", "cpu", "io", "memory", "hugetlb", "pids", "rdma", "misc", "dmem",
];

const LINE_OF_FORMAT: &str = "format = 4\n";

/// The line of some controllers, in the order in which they are named, and the line of the format.
fn beginning_of(alloc: Global, names: &[&str]) -> Result<String, AllocError> {
    let mut text = String::from_str(alloc, "controllers = [")?;
    let mut before = "\"";
    for name in names {
        text.push_str(before)?;
        text.push_str(name)?;
        text.push_str("\"")?;
        before = ", \"";
    }
    text.push_str("]\n")?;
    text.push_str(LINE_OF_FORMAT)?;
    Ok(text)
}

/// Those of the nine whose place is set in a number.
fn names_of(alloc: Global, set: usize) -> Result<Vec<&'static str>, AllocError> {
    let mut names = Vec::new(alloc);
    for (place, name) in NAMES.iter().enumerate() {
        if set >> place & 1 == 1 {
            names.push(*name)?;
        }
    }
    Ok(names)
}

/// Fails where a text says otherwise, or what may be its length isn't so.
fn expect(rt: &impl Abort, text: &[u8], is_large: bool, name: &str) {
    let most = if is_large {
        LONGEST_LARGE_TEXT
    } else {
        LONGEST_TEXT
    };
    assert_eq!(rt; says_large(text), is_large, "{name}");
    assert_eq!(rt; longest_text(text), most, "{name}");
}

#[test]
fn the_longest_texts(rt: HostRuntime) {
    assert_eq!(rt; LONGEST_TEXT, 16_777_216);
    assert_eq!(rt; LONGEST_LARGE_TEXT, 67_108_864);
}

/// With whatever behind it, and not where any byte of it is missing at its end.
fn expect_large(rt: &impl Abort, alloc: Global, text: &str) -> Result<(), Fail> {
    expect(rt, text.as_bytes(), true, text);
    for behind in ["\n", "\u{0}", "format = 2\n", "controllers = []\n", "]"] {
        let longer = format!(in alloc; "{text}{behind}")?;
        expect(rt, longer.as_bytes(), true, longer.as_str());
    }
    for len in 0..text.len() {
        expect(rt, &text.as_bytes()[..len], false, text);
    }
    Ok(())
}

#[test]
fn the_format_or_the_controllers_come_first(rt: HostRuntime) -> Result<(), Fail> {
    expect_large(&rt, rt.alloc(), LINE_OF_FORMAT)?;
    for names in [
        [].as_slice(),
        &["cpuset"],
        &["dmem"],
        &["cpu", "io"],
        &NAMES,
    ] {
        let text = beginning_of(rt.alloc(), names)?;
        expect_large(&rt, rt.alloc(), text.as_str())?;
    }
    Ok(())
}

/// The longest has fewer bytes than are looked at.
#[test]
fn any_of_the_nine_may_be_named(rt: HostRuntime) -> Result<(), Fail> {
    let mut longest = 0;
    for set in 0..1 << NAMES.len() {
        let text = beginning_of(rt.alloc(), names_of(rt.alloc(), set)?.as_slice())?;
        expect(&rt, text.as_bytes(), true, text.as_str());
        longest = longest.max(text.len());
    }
    assert_eq!(rt; longest, 102);
    Ok(())
}

#[test]
fn each_stands_once_and_in_its_order(rt: HostRuntime) -> Result<(), Fail> {
    for (place, first) in NAMES.iter().enumerate() {
        for (other, second) in NAMES.iter().enumerate() {
            let text = beginning_of(rt.alloc(), &[*first, *second])?;
            expect(&rt, text.as_bytes(), place < other, text.as_str());
        }
    }
    for names in [
        ["cpuset", "cpu", "io", "cpu"],
        ["io", "cpu", "pids", "dmem"],
        ["cpu", "memory", "memory", "pids"],
        ["dmem", "dmem", "dmem", "dmem"],
    ] {
        let text = beginning_of(rt.alloc(), &names)?;
        expect(&rt, text.as_bytes(), false, text.as_str());
    }
    Ok(())
}

#[test]
fn no_byte_may_be_another(rt: HostRuntime) -> Result<(), Fail> {
    for text in [
        String::from_str(rt.alloc(), LINE_OF_FORMAT)?,
        beginning_of(rt.alloc(), &NAMES)?,
    ] {
        let name = text.clone()?;
        let mut bytes = text.into_bytes();
        for place in 0..bytes.len() {
            for change in [0x01, 0x20, 0x80] {
                bytes[place] ^= change;
                expect(&rt, bytes.as_slice(), false, name.as_str());
                bytes[place] ^= change;
            }
        }
    }
    Ok(())
}

/// What is nearly such a beginning. Most of it is TOML that means the same.
const NOT_LARGE: [&str; 39] = [
    "\nformat = 4\n",
    "\r\nformat = 4\n",
    " format = 4\n",
    "\tformat = 4\n",
    "# a tree\nformat = 4\n",
    "\u{feff}format = 4\n",
    "\u{feff}controllers = []\nformat = 4\n",
    "format = 4\r\n",
    "format = 4\r",
    "format = 4 \n",
    "format = 4# nine\n",
    "format=4\n",
    "format  = 4\n",
    "\"format\" = 4\n",
    "format = +4\n",
    "format = 0x4\n",
    "format = 04\n",
    "format = 40\n",
    "format = 4.0\n",
    "format = 2\n",
    "format = 1\n",
    "format = 3\n",
    "controllers = []\n",
    "controllers = []\nformat = 2\n",
    "controllers = []\nprocess = []\nformat = 4\n",
    "controllers = []\n\nformat = 4\n",
    "controllers = []\r\nformat = 4\n",
    "controllers = []\nformat = 4\r\n",
    "controllers = [ ]\nformat = 4\n",
    "controllers = [\n]\nformat = 4\n",
    "controllers = [\"io\"] \nformat = 4\n",
    "controllers = [\"io\",]\nformat = 4\n",
    "controllers = [, \"io\"]\nformat = 4\n",
    "controllers = [\"cpu\",\"io\"]\nformat = 4\n",
    "controllers = [\"cpu\"  , \"io\"]\nformat = 4\n",
    "controllers = ['io']\nformat = 4\n",
    "controllers = [\"perf_event\"]\nformat = 4\n",
    "controllers = [\"cpu\", \"\"]\nformat = 4\n",
    "controllers = [\"\"\"io\"\"\"]\nformat = 4\n",
];

#[test]
fn what_is_nearly_such_a_beginning(rt: HostRuntime) {
    for text in NOT_LARGE {
        expect(&rt, text.as_bytes(), false, text);
    }
}
