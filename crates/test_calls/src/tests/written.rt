//! `write_whole` at writers that fail and dawdle.
use super::writers::{ByteByByte, FailsOnce, TakesNone};
use std::test::Fail;
use streams::write::{WriteFailed, write_whole};

const TEXT: &[u8] = b"refused no-access / cgroup.procs\n";

#[test]
fn a_failed_write_is_not_tried_again(rt: HostRuntime) -> Result<(), Fail> {
    for room in 0..TEXT.len() {
        let mut out = FailsOnce::new(rt.alloc(), room);
        assert_eq!(rt; write_whole(&mut out, TEXT), Err(WriteFailed));
        assert_eq!(rt; out.taken.as_slice(), &TEXT[..room]);
    }
    let mut out = FailsOnce::new(rt.alloc(), TEXT.len());
    assert_eq!(rt; write_whole(&mut out, TEXT), Ok(()));
    assert!(rt; !out.has_failed);
    assert_eq!(rt; out.taken.as_slice(), TEXT);
    Ok(())
}

#[test]
fn a_slow_writer_gets_the_whole_text(rt: HostRuntime) -> Result<(), Fail> {
    let mut out = ByteByByte {
        taken: Vec::new(rt.alloc()),
    };
    assert_eq!(rt; write_whole(&mut out, TEXT), Ok(()));
    assert_eq!(rt; out.taken.as_slice(), TEXT);
    Ok(())
}

#[test]
fn a_writer_that_takes_nothing_has_failed(rt: HostRuntime) {
    let mut out = TakesNone { asked: 0 };
    assert_eq!(rt; write_whole(&mut out, TEXT), Err(WriteFailed));
    assert_eq!(rt; out.asked, 1);
    assert_eq!(rt; write_whole(&mut out, b""), Ok(()));
    assert_eq!(rt; out.asked, 1);
}
