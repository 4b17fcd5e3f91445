//! PIDs.
use cg_cgroup::process::Pid;
use std::test::Fail;

#[test]
fn makes_pids(rt: HostRuntime) -> Result<(), Fail> {
    for number in [1, 4194303] {
        assert_eq!(rt; Pid::new(number).ok_or("no PID")?.get(), number);
    }
    assert!(rt; Pid::new(0).is_none() && Pid::new(4194304).is_none());
    Ok(())
}
