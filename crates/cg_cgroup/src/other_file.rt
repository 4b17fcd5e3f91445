//! Limit files beyond `LimitFile`, whose values are texts.
ghost use Rattle.std.specs.Prelude.{◌≡◌, ◌<◌, length};
ghost use Rattle.cg_cgroup.specs.OtherKinds.{all_others, other_kind, other_name, other_named, brought_by};
ghost use Rattle.cg_cgroup.specs.Files.{stands_by};

use crate::controllers::ControllerSet;
use crate::files::Controller;

/// How many there are.
pub const OTHER_COUNT: usize = 43;

/// A limit file beyond `LimitFile`.
#[derive(Clone, Copy, Debug, PartialEq, Eq)]
pub enum OtherFile {
    Freeze,
    CpuIdle,
    CpuMax,
    CpuMaxBurst,
    CpuUclampMax,
    CpuUclampMin,
    CpuWeightNice,
    CpusetCpus,
    CpusetCpusExclusive,
    CpusetCpusPartition,
    CpusetMems,
    DmemLow,
    DmemMax,
    DmemMin,
    HugetlbOf16GbMax,
    HugetlbOf16GbReservedMax,
    HugetlbOf16MbMax,
    HugetlbOf16MbReservedMax,
    HugetlbOf1GbMax,
    HugetlbOf1GbReservedMax,
    HugetlbOf1MbMax,
    HugetlbOf1MbReservedMax,
    HugetlbOf2GbMax,
    HugetlbOf2GbReservedMax,
    HugetlbOf2MbMax,
    HugetlbOf2MbReservedMax,
    HugetlbOf32MbMax,
    HugetlbOf32MbReservedMax,
    HugetlbOf512MbMax,
    HugetlbOf512MbReservedMax,
    HugetlbOf64KbMax,
    HugetlbOf64KbReservedMax,
    IoBfqWeight,
    IoLatency,
    IoMax,
    IoPrioClass,
    IoWeight,
    MemorySwapHigh,
    MemorySwapMax,
    MemoryZswapMax,
    MemoryZswapWriteback,
    MiscMax,
    RdmaMax,
}

/// What such a file is.
#[derive(Clone, Copy, Debug)]
struct OtherKind {
    name: &'static str,
    /// The controller that brings it; `None` for the one of the core.
    controller: Option<Controller>,
    /// A value that holds nothing, or little.
    loose: &'static str,
}

impl OtherFile {
    /// They, in the order of their names.
    pub const ALL: [OtherFile; OTHER_COUNT] = [
        OtherFile::Freeze,
        OtherFile::CpuIdle,
        OtherFile::CpuMax,
        OtherFile::CpuMaxBurst,
        OtherFile::CpuUclampMax,
        OtherFile::CpuUclampMin,
        OtherFile::CpuWeightNice,
        OtherFile::CpusetCpus,
        OtherFile::CpusetCpusExclusive,
        OtherFile::CpusetCpusPartition,
        OtherFile::CpusetMems,
        OtherFile::DmemLow,
        OtherFile::DmemMax,
        OtherFile::DmemMin,
        OtherFile::HugetlbOf16GbMax,
        OtherFile::HugetlbOf16GbReservedMax,
        OtherFile::HugetlbOf16MbMax,
        OtherFile::HugetlbOf16MbReservedMax,
        OtherFile::HugetlbOf1GbMax,
        OtherFile::HugetlbOf1GbReservedMax,
        OtherFile::HugetlbOf1MbMax,
        OtherFile::HugetlbOf1MbReservedMax,
        OtherFile::HugetlbOf2GbMax,
        OtherFile::HugetlbOf2GbReservedMax,
        OtherFile::HugetlbOf2MbMax,
        OtherFile::HugetlbOf2MbReservedMax,
        OtherFile::HugetlbOf32MbMax,
        OtherFile::HugetlbOf32MbReservedMax,
        OtherFile::HugetlbOf512MbMax,
        OtherFile::HugetlbOf512MbReservedMax,
        OtherFile::HugetlbOf64KbMax,
        OtherFile::HugetlbOf64KbReservedMax,
        OtherFile::IoBfqWeight,
        OtherFile::IoLatency,
        OtherFile::IoMax,
        OtherFile::IoPrioClass,
        OtherFile::IoWeight,
        OtherFile::MemorySwapHigh,
        OtherFile::MemorySwapMax,
        OtherFile::MemoryZswapMax,
        OtherFile::MemoryZswapWriteback,
        OtherFile::MiscMax,
        OtherFile::RdmaMax,
    ];

    /// What the file is.
    fn kind(self) -> OtherKind
        ensures name { result.name.now ≡ (other_kind self).name }
        ensures controller { result.controller ≡ (other_kind self).controller }
        ensures loose { result.loose.now ≡ (other_kind self).loose }
    {
        let (name, controller, loose) = match self {
            OtherFile::Freeze => ("cgroup.freeze", None, "0"),
            OtherFile::CpuIdle => ("cpu.idle", Some(Controller::Cpu), "0"),
            OtherFile::CpuMax => ("cpu.max", Some(Controller::Cpu), "max 100000"),
            OtherFile::CpuMaxBurst => ("cpu.max.burst", Some(Controller::Cpu), "0"),
            OtherFile::CpuUclampMax => ("cpu.uclamp.max", Some(Controller::Cpu), "max"),
            OtherFile::CpuUclampMin => ("cpu.uclamp.min", Some(Controller::Cpu), "max"),
            OtherFile::CpuWeightNice => ("cpu.weight.nice", Some(Controller::Cpu), "-20"),
            OtherFile::CpusetCpus => ("cpuset.cpus", Some(Controller::Cpuset), "0-1"),
            OtherFile::CpusetCpusExclusive => (
                "cpuset.cpus.exclusive",
                Some(Controller::Cpuset),
                "0-1",
            ),
            OtherFile::CpusetCpusPartition => (
                "cpuset.cpus.partition",
                Some(Controller::Cpuset),
                "member",
            ),
            OtherFile::CpusetMems => ("cpuset.mems", Some(Controller::Cpuset), "0-1"),
            OtherFile::DmemLow => ("dmem.low", Some(Controller::Dmem), "max"),
            OtherFile::DmemMax => ("dmem.max", Some(Controller::Dmem), "max"),
            OtherFile::DmemMin => ("dmem.min", Some(Controller::Dmem), "max"),
            OtherFile::HugetlbOf16GbMax => ("hugetlb.16GB.max", Some(Controller::Hugetlb), "max"),
            OtherFile::HugetlbOf16GbReservedMax => (
                "hugetlb.16GB.rsvd.max",
                Some(Controller::Hugetlb),
                "max",
            ),
            OtherFile::HugetlbOf16MbMax => ("hugetlb.16MB.max", Some(Controller::Hugetlb), "max"),
            OtherFile::HugetlbOf16MbReservedMax => (
                "hugetlb.16MB.rsvd.max",
                Some(Controller::Hugetlb),
                "max",
            ),
            OtherFile::HugetlbOf1GbMax => ("hugetlb.1GB.max", Some(Controller::Hugetlb), "max"),
            OtherFile::HugetlbOf1GbReservedMax => (
                "hugetlb.1GB.rsvd.max",
                Some(Controller::Hugetlb),
                "max",
            ),
            OtherFile::HugetlbOf1MbMax => ("hugetlb.1MB.max", Some(Controller::Hugetlb), "max"),
            OtherFile::HugetlbOf1MbReservedMax => (
                "hugetlb.1MB.rsvd.max",
                Some(Controller::Hugetlb),
                "max",
            ),
            OtherFile::HugetlbOf2GbMax => ("hugetlb.2GB.max", Some(Controller::Hugetlb), "max"),
            OtherFile::HugetlbOf2GbReservedMax => (
                "hugetlb.2GB.rsvd.max",
                Some(Controller::Hugetlb),
                "max",
            ),
            OtherFile::HugetlbOf2MbMax => ("hugetlb.2MB.max", Some(Controller::Hugetlb), "max"),
            OtherFile::HugetlbOf2MbReservedMax => (
                "hugetlb.2MB.rsvd.max",
                Some(Controller::Hugetlb),
                "max",
            ),
            OtherFile::HugetlbOf32MbMax => ("hugetlb.32MB.max", Some(Controller::Hugetlb), "max"),
            OtherFile::HugetlbOf32MbReservedMax => (
                "hugetlb.32MB.rsvd.max",
                Some(Controller::Hugetlb),
                "max",
            ),
            OtherFile::HugetlbOf512MbMax => ("hugetlb.512MB.max", Some(Controller::Hugetlb), "max"),
            OtherFile::HugetlbOf512MbReservedMax => (
                "hugetlb.512MB.rsvd.max",
                Some(Controller::Hugetlb),
                "max",
            ),
            OtherFile::HugetlbOf64KbMax => ("hugetlb.64KB.max", Some(Controller::Hugetlb), "max"),
            OtherFile::HugetlbOf64KbReservedMax => (
                "hugetlb.64KB.rsvd.max",
                Some(Controller::Hugetlb),
                "max",
            ),
            OtherFile::IoBfqWeight => ("io.bfq.weight", Some(Controller::Io), "default 1000"),
            OtherFile::IoLatency => ("io.latency", Some(Controller::Io), "target=max"),
            OtherFile::IoMax => (
                "io.max",
                Some(Controller::Io),
                "rbps=max wbps=max riops=max wiops=max",
            ),
            OtherFile::IoPrioClass => ("io.prio.class", Some(Controller::Io), "no-change"),
            OtherFile::IoWeight => ("io.weight", Some(Controller::Io), "default 10000"),
            OtherFile::MemorySwapHigh => ("memory.swap.high", Some(Controller::Memory), "max"),
            OtherFile::MemorySwapMax => ("memory.swap.max", Some(Controller::Memory), "max"),
            OtherFile::MemoryZswapMax => ("memory.zswap.max", Some(Controller::Memory), "max"),
            OtherFile::MemoryZswapWriteback => (
                "memory.zswap.writeback",
                Some(Controller::Memory),
                "1",
            ),
            OtherFile::MiscMax => ("misc.max", Some(Controller::Misc), "max"),
            OtherFile::RdmaMax => (
                "rdma.max",
                Some(Controller::Rdma),
                "hca_handle=max hca_object=max",
            ),
        };
        OtherKind {
            name,
            controller,
            loose,
        }
    }

    /// The number, among them all.
    pub fn number(self) -> usize
        ensures number { result ≡ (other_kind self).number }
        ensures within { result < length all_others }
    {
        self as usize
    }

    /// The name.
    pub fn name(self) -> &'static str
        ensures { result.now ≡ other_name self }
    {
        self.kind().name
    }

    /// The file of a name, where it is one.
    pub fn from_name(text: &str) -> Option<OtherFile>
        ensures { result ≡ other_named text.now }
    {
        OtherFile::ALL
            .iter()
            .copied()
            .find(|file| text == file.name())
    }

    /// The controller that brings it; `None` for the one of the core.
    pub fn controller(self) -> Option<Controller>
        ensures { result ≡ brought_by self }
    {
        self.kind().controller
    }

    /// Whether it stands at a child of a cgroup that enables these controllers.
    pub fn stands_under(self, enabled: ControllerSet) -> bool
        ensures { result ≡ stands_by enabled (brought_by self) }
    {
        match self.controller() {
            Some(controller) => enabled.contains(controller),
            None => true,
        }
    }

    /// Whether each of its lines begins with the name of a device or of a resource.
    pub fn is_of_devices(self) -> bool
        ensures { result ≡ (other_kind self).of_devices }
    {
        match self {
            OtherFile::DmemLow | OtherFile::DmemMax | OtherFile::DmemMin | OtherFile::IoLatency =>
                true,
            OtherFile::IoMax | OtherFile::MiscMax | OtherFile::RdmaMax => true,
            _ => false,
        }
    }

    /// A value that loosens the file; behind the name of a device where each of its lines begins with one.
    pub fn loose(self) -> &'static str
        ensures { result.now ≡ (other_kind self).loose }
    {
        self.kind().loose
    }

    /// Another value than that, for a file that has it already.
    pub fn other(self) -> &'static str
        ensures { result.now ≡ (other_kind self).other }
    {
        match self {
            OtherFile::Freeze | OtherFile::CpuIdle | OtherFile::CpuMaxBurst => "1",
            OtherFile::CpuMax => "max 50000",
            OtherFile::CpuUclampMax => "50",
            OtherFile::CpuWeightNice => "-19",
            OtherFile::CpusetCpusPartition => "root",
            OtherFile::IoBfqWeight => "default 999",
            OtherFile::IoLatency => "target=1",
            OtherFile::IoMax => "rbps=2 wbps=2 riops=2 wiops=2",
            OtherFile::IoPrioClass => "none-to-rt",
            OtherFile::IoWeight => "default 9999",
            OtherFile::RdmaMax => "hca_handle=0 hca_object=0",
            _ => "0",
        }
    }
}
