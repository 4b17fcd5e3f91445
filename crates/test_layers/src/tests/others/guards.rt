//! The first guard that fails of `/s` against user 1000, where such a file is reached.
use crate::tests::guards::trees::first_failed;
use crate::tests::others::trees::{outcome_of, tree_of};
use crate::tests::trees::fixtures::Owners;
use cg_cgroup::files::{EntryName, LimitFile};
use cg_cgroup::other_file::OtherFile;
use cg_cgroup::user::User;
use cg_model::guard::{Failed, Guard};
use std::test::Fail;

/// Operations that users carry out, and the file of `/s` whose guard is then the first that fails; else it is that of the root's
/// `cgroup.subtree_control`, which is user 1000's and asked behind the files. All of `/s` is user 1's.
type Row = (&'static [(u32, &'static str)], Option<EntryName>);

const ROWS: [Row; 8] = [
    (&[], None),
    (
        &[(1, "chmod /s cgroup.freeze 646")],
        Some(EntryName::Other(OtherFile::Freeze)),
    ),
    (
        &[
            (1, "chmod /s cgroup.freeze 646"),
            (1, "chmod /s cgroup.max.depth 646"),
        ],
        Some(EntryName::File(LimitFile::MaxDepth)),
    ),
    (
        &[
            (1, "chmod /s cgroup.freeze 646"),
            (1000, "set /s cgroup.freeze 1"),
            (1, "chmod /s cgroup.freeze 644"),
        ],
        None,
    ),
    (&[(1, "set /s cgroup.freeze 1")], None),
    (
        &[
            (1000, "chmod /s/a cgroup.freeze 666"),
            (1, "chmod /s dir 777"),
        ],
        None,
    ),
    (
        &[(1000, "control / +io")],
        Some(EntryName::Other(OtherFile::IoBfqWeight)),
    ),
    (
        &[
            (1000, "control / +io"),
            (1000, "set /s io.max max"),
            (1000, "control / -io"),
        ],
        None,
    ),
];

#[test]
fn files_are_reached(rt: HostRuntime) -> Result<(), Fail> {
    let user = User::new(1000).ok_or("user")?;
    for (lines, file) in ROWS {
        let mut tree = tree_of(rt.alloc(), Owners::ADMINISTRATOR)?;
        for (uid, line) in lines {
            outcome_of(rt.alloc(), &mut tree, *uid, line)?;
        }
        let (guard, len) = match file {
            Some(name) => (Guard::LimitFile(name), 1),
            None => (Guard::ParentControl, 0),
        };
        assert_eq!(rt;
            first_failed(rt.alloc(), tree, &user, "/s")?,
            Some(Failed { guard, len }),
            "{lines:?}"
        );
    }
    Ok(())
}
