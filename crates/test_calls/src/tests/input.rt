//! `read_input` and `read_tree_input` at readers that fail, dawdle and never end.
use super::readers::{Endless, FailsAfter, Interrupted, Pieces};
use cg_faults::fault::CliFault;
use cg_input::read::read_tree_input;
use std::io::{ErrorKind, Read};
use std::test::Fail;
use streams::read::read_input;

#[test]
fn an_input_is_read_whole(rt: HostRuntime) -> Result<(), Fail> {
    let text = read_input(rt.alloc(), b"format = 1\n".as_slice())?;
    assert_eq!(rt; text.as_slice(), b"format = 1\n".as_slice());
    Ok(())
}

#[test]
fn of_an_endless_input_so_much_is_read_that_it_is_too_long(rt: HostRuntime) -> Result<(), Fail> {
    let text = read_input(rt.alloc(), Endless)?;
    assert_eq!(rt; text.len(), 16_777_217);
    Ok(())
}

#[test]
fn a_failed_read_is_said(rt: HostRuntime) {
    for (kind, fault) in [
        (ErrorKind::IsADirectory, CliFault::Read),
        (ErrorKind::OutOfMemory, CliFault::NoMemory),
    ] {
        for left in 0..3 {
            assert_eq!(rt;
                read_input(rt.alloc(), FailsAfter { left, kind })
                    .map_err(CliFault::from)
                    .err(),
                Some(fault)
            );
        }
    }
}

const FORMAT_FIRST: &[u8] = b"format = 4\n";

const CONTROLLERS_FIRST: &[u8] = b"controllers = [\"cpu\", \"io\"]\nformat = 4\n";

const FORMAT_2: &[u8] = b"controllers = [\"cpu\"]\nformat = 2\n";

#[test]
fn a_tree_is_read_whole_in_pieces_of_any_size(rt: HostRuntime) -> Result<(), Fail> {
    let mut long = Vec::from_slice(rt.alloc(), CONTROLLERS_FIRST)?;
    long.resize(1000, b'#')?;
    for text in [b"".as_slice(), FORMAT_FIRST, FORMAT_2, long.as_slice()] {
        for size in [1, 3, 100, 128, 4096] {
            let read = read_tree_input(rt.alloc(), Pieces::new(text, size))?;
            assert_eq!(rt; read.as_slice(), text);
        }
    }
    Ok(())
}

#[test]
fn an_interrupted_read_of_a_tree_is_made_again(rt: HostRuntime) -> Result<(), Fail> {
    let inner = Pieces::new(CONTROLLERS_FIRST, 7);
    let read = read_tree_input(rt.alloc(), Interrupted { inner, turn: 0 })?;
    assert_eq!(rt; read.as_slice(), CONTROLLERS_FIRST);
    Ok(())
}

#[test]
fn of_an_endless_tree_as_much_is_read_as_of_a_small_one(rt: HostRuntime) -> Result<(), Fail> {
    let read = read_tree_input(rt.alloc(), Pieces::new(FORMAT_2, 1).chain(Endless))?;
    assert_eq!(rt; read.len(), 16_777_217);
    Ok(())
}

#[test]
fn of_an_endless_tree_that_says_that_it_is_large_more_is_read(rt: HostRuntime) -> Result<(), Fail> {
    let read = read_tree_input(rt.alloc(), Pieces::new(CONTROLLERS_FIRST, 1).chain(Endless))?;
    assert_eq!(rt; read.len(), 67_108_865);
    Ok(())
}

#[test]
fn a_failed_read_of_a_tree_is_said(rt: HostRuntime) {
    for (kind, fault) in [
        (ErrorKind::IsADirectory, CliFault::Read),
        (ErrorKind::OutOfMemory, CliFault::NoMemory),
    ] {
        for left in [0, 1, 127, 128, 129, 1000] {
            assert_eq!(rt;
                read_tree_input(rt.alloc(), FailsAfter { left, kind })
                    .map_err(CliFault::from)
                    .err(),
                Some(fault)
            );
        }
    }
}
