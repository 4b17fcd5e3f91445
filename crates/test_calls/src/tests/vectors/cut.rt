//! The delegation example, cut after each of its bytes.
use super::{Asked, expect_line};
use std::test::Fail;
use test_trees::texts::DELEGATION;

const NO_CGROUP: &str = "refused no-such-cgroup /c0/c01";

const NO_ACCESS: &str = "refused no-access /c0/c01 cgroup.procs";

const NO_PROCESS: &str = "refused no-such-process 11";

/// The lengths of the fronts of the text that are TOML documents, by the line that is said of them where user 1000 moves
/// process 11 to `/c0/c01`. A front is one mostly where a line of the text is whole, without its newline or with it.
///
/// The table was made by a program in another language, which reads TOML by that language's own library, and in which
/// the form of a tree text, its faults in their order and the clauses of a move were written a second time, from their
/// descriptions.
const DOCUMENTS: [(&str, &[usize]); 14] = [
    ("fault: tree shape top", &[0, 1, 11, 12]),
    ("fault: tree no-root", &[51, 52, 53]),
    ("fault: tree shape cgroup 1", &[63, 64]),
    (
        NO_CGROUP,
        &[
            74, 75, 95, 96, 97, 120, 121, 141, 142, 156, 157, 188, 189, 230, 231, 265, 266, 306,
            307, 344, 345, 346, 369, 370, 390, 391, 405, 406, 437, 438, 479, 480, 481, 508, 509,
            529, 530, 544, 545, 576, 577, 618, 619, 654, 655, 696, 697, 698,
        ],
    ),
    ("fault: tree shape cgroup 2", &[107, 108]),
    ("fault: tree shape cgroup 3", &[356, 357]),
    ("fault: tree shape cgroup 4", &[491, 492]),
    ("fault: tree shape cgroup 5", &[708, 709]),
    (NO_ACCESS, &[725, 726, 746, 747, 761, 762]),
    (
        NO_PROCESS,
        &[
            793, 794, 835, 836, 871, 872, 913, 914, 915, 942, 943, 963, 964, 978, 979, 1010, 1011,
            1052, 1053, 1088, 1089, 1130, 1131, 1132, 1178, 1179, 1180,
        ],
    ),
    ("fault: tree shape cgroup 6", &[925, 926]),
    (
        "fault: tree shape process 1",
        &[1143, 1144, 1151, 1152, 1153, 1160, 1161, 1162, 1163, 1164],
    ),
    (
        "fault: tree shape process 2",
        &[1191, 1192, 1199, 1200, 1201, 1208, 1209, 1210, 1211, 1212],
    ),
    ("granted", &[1226, 1227]),
];

/// The line that is said of a front of so many bytes.
fn wanted(len: usize) -> &'static str {
    for (line, lens) in DOCUMENTS {
        if lens.contains(&len) {
            return line;
        }
    }
    "fault: tree not-toml"
}

#[test]
fn every_front_is_read_or_refused(rt: HostRuntime) -> Result<(), Fail> {
    assert_eq!(rt; DELEGATION.len(), 1227);
    let asked = Asked {
        gids: &[],
        pid: 11,
        to: "/c0/c01",
    };
    for len in 0..=DELEGATION.len() {
        expect_line(&rt, rt.alloc(), &DELEGATION[..len], asked, wanted(len))?;
    }
    Ok(())
}
