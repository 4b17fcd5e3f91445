//! Controllers, limit files and the names of entries.
use cg_cgroup::files::{Controller, ControllerSet, EntryName, Limit, LimitFile, Vocabulary};
use cg_cgroup::other_file::OtherFile;
use cg_cgroup::value::device_in;

/// The limit files in their order, by the names that the kernel gives them.
pub const NAMED: [(LimitFile, &str); 8] = [
    (LimitFile::MaxDescendants, "cgroup.max.descendants"),
    (LimitFile::MaxDepth, "cgroup.max.depth"),
    (LimitFile::CpuWeight, "cpu.weight"),
    (LimitFile::MemoryMin, "memory.min"),
    (LimitFile::MemoryLow, "memory.low"),
    (LimitFile::MemoryHigh, "memory.high"),
    (LimitFile::MemoryMax, "memory.max"),
    (LimitFile::PidsMax, "pids.max"),
];

const CONTROLLERS: [&str; 9] = [
    "cpuset", "cpu", "io", "memory", "hugetlb", "pids", "rdma", "misc", "dmem",
];

#[test]
fn names_are_the_kernels(rt: HostRuntime) {
    for (file, (wanted, name)) in LimitFile::ALL.iter().zip(NAMED) {
        assert_eq!(rt; *file, wanted);
        assert_eq!(rt; file.name(), name);
        assert_eq!(rt; LimitFile::from_name(name), Some(wanted));
        assert_eq!(rt; EntryName::from_name(name), Some(EntryName::File(wanted)));
    }
    for (controller, name) in Controller::ALL.iter().zip(CONTROLLERS) {
        assert_eq!(rt; controller.name(), name);
        assert_eq!(rt; Controller::from_name(name), Some(*controller));
        let known = name == "cpu" || name == "memory" || name == "pids";
        assert_eq!(rt; controller.is_in_format_2(), known);
        assert_eq!(rt; Controller::from_format_2(name).is_some(), known);
    }
    assert_eq!(rt; EntryName::Dir.name(), "dir");
    assert_eq!(rt;
        EntryName::from_name("cgroup.procs"),
        Some(EntryName::Procs)
    );
    assert_eq!(rt; LimitFile::from_name("cgroup.procs"), None);
}

/// Each has the name of its controller before the first dot, and they stand in the order of their names.
#[test]
fn files_beyond_are_named_by_their_controllers(rt: HostRuntime) {
    let mut before = "";
    for file in OtherFile::ALL {
        let name = file.name();
        assert!(rt; before < name, "{before} {name}");
        before = name;
        let first = name.split('.').next();
        let controller = file.controller().map(|controller| controller.name());
        assert_eq!(rt; first, Some(controller.unwrap_or("cgroup")), "{name}");
        assert_eq!(rt; EntryName::from_name(name), Some(EntryName::Other(file)));
        assert_eq!(rt; LimitFile::from_name(name), None);
    }
}

#[test]
fn values_and_places(rt: HostRuntime) {
    let weight = LimitFile::CpuWeight;
    assert_eq!(rt; weight.default_value(), Limit::At(100));
    assert!(rt; weight.accepts(Limit::At(1)) && weight.accepts(Limit::At(10000)));
    assert!(rt; !weight.accepts(Limit::At(0)) && !weight.accepts(Limit::At(10001)));
    assert!(rt; !weight.accepts(Limit::Max));
    assert!(rt; LimitFile::MaxDepth.accepts(Limit::At(9223372036854775807)));
    assert!(rt; !LimitFile::MaxDepth.accepts(Limit::At(9223372036854775808)));
    assert_eq!(rt; LimitFile::MemoryLow.controller(), Some(Controller::Memory));
    assert!(rt; LimitFile::MaxDepth.stands_under(ControllerSet::none()));
}

#[test]
fn vocabularies(rt: HostRuntime) {
    let (small, great) = (Vocabulary::Format2, Vocabulary::Format4);
    for (controller, name) in Controller::ALL.iter().zip(CONTROLLERS) {
        let known = controller.is_in_format_2();
        assert!(rt;
            small.has(*controller) == known && great.has(*controller),
            "{name}"
        );
        assert_eq!(rt; small.controller(name), known.then_some(*controller));
        assert_eq!(rt; great.controller(name), Some(*controller));
        let alone = ControllerSet::none().with(*controller, true);
        for set in [alone, alone.with(Controller::Pids, true)] {
            assert!(rt; small.has_all(set) == known && great.has_all(set), "{name}");
            assert_eq!(rt; Vocabulary::of(set), if known { small } else { great });
        }
    }
    for name in ["perf_event", "IO", "io.max", ""] {
        assert_eq!(rt; great.controller(name), None, "{name}");
    }
    assert_eq!(rt; Vocabulary::of(ControllerSet::none()), small);
}

#[test]
fn sets_of_controllers(rt: HostRuntime) {
    let none = ControllerSet::none();
    let some = none.with(Controller::Memory, true);
    assert!(rt; some.contains(Controller::Memory) && !some.contains(Controller::Pids));
    assert!(rt; none.is_empty() && !some.is_empty());
    assert!(rt; none.is_within(&some) && !some.is_within(&none));
}

#[test]
fn devices_stand_first(rt: HostRuntime) {
    let values = [
        ("8:0 rbps=1 wbps=max", Some("8:0")),
        (
            "drm/0000:03:00.0/vram0 5\nmxl 6",
            Some("drm/0000:03:00.0/vram0"),
        ),
        ("max", None),
        ("8:0", None),
        ("", None),
        ("sev\nsev_es 1", None),
        (" 8:0", None),
        ("\t8:0 1", None),
    ];
    for (value, device) in values {
        assert_eq!(rt; device_in(value), device, "{value}");
    }
}
