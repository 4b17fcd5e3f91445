//! Controllers, and the limit files that they bring.
ghost use Rattle.std.specs.Prelude.{ℕ, ◌≡◌, ◌≢◌, ◌<◌, ◌≤◌, true, false, length, IfSome, IfNone};
ghost use Rattle.std.specs.List.{find};
ghost use Rattle.cg_cgroup.specs.Paths.{same_name};
ghost use Rattle.std.specs.Option.{option_map};
ghost use Rattle.cg_cgroup.specs.OtherKinds.{other_named};
ghost use Rattle.cg_cgroup.specs.declared.files.EntryName.TheVariants.{Other};
ghost use Rattle.cg_cgroup.specs.Files.{kind_of, brought_files, place_of, controller_of, default_value, accepts, stands_under, all_controllers, format_2_controllers, controller_kind, all_files, AreNames, controller_name, controller_named, is_in_format_2, named_in_format_2, is_known, known_as, is_of, vocabulary_of, file_name, file_named, entry_text, entry_named, entry_known_as};

use crate::controllers::CONTROLLER_COUNT;
pub use crate::controllers::ControllerSet;
use crate::other_file::OtherFile;

/// The value of a limit file: `max`, or a number.
#[derive(Clone, Copy, Debug, PartialEq, Eq)]
pub enum Limit {
    Max,
    At(u64),
}

/// The controllers of the profile, in the order used everywhere.
#[derive(Clone, Copy, Debug, PartialEq, Eq)]
pub enum Controller {
    Cpuset,
    Cpu,
    Io,
    Memory,
    Hugetlb,
    Pids,
    Rdma,
    Misc,
    Dmem,
}

impl Controller {
    /// The controllers, in their order.
    pub const ALL: [Controller; CONTROLLER_COUNT] = [
        Controller::Cpuset,
        Controller::Cpu,
        Controller::Io,
        Controller::Memory,
        Controller::Hugetlb,
        Controller::Pids,
        Controller::Rdma,
        Controller::Misc,
        Controller::Dmem,
    ];

    /// Those that texts of formats 1 and 2, and operation lines for them, name: the ones that bring a `LimitFile`.
    pub const IN_FORMAT_2: [Controller; 3] = [
        Controller::Cpu,
        Controller::Memory,
        Controller::Pids,
    ];

    /// The number in their order, from 0.
    pub(crate) fn number(self) -> usize
        ensures number { result ≡ (controller_kind self).number }
        ensures within { result < length all_controllers }
    {
        self as usize
    }

    /// The name.
    pub fn name(self) -> &'static str
        ensures { result.now ≡ controller_name self }
    {
        match self {
            Controller::Cpuset => "cpuset",
            Controller::Cpu => "cpu",
            Controller::Io => "io",
            Controller::Memory => "memory",
            Controller::Hugetlb => "hugetlb",
            Controller::Pids => "pids",
            Controller::Rdma => "rdma",
            Controller::Misc => "misc",
            Controller::Dmem => "dmem",
        }
    }

    /// The controller of a name, where it is one.
    pub fn from_name(text: &str) -> Option<Controller>
        ensures found { result ≡ controller_named text.now }
        ensures named { IfSome result (λ controller. text.now ≡ controller_name controller) }
        ensures unnamed { IfNone result ((controller : Controller) → text.now ≢ controller_name controller) }
    {
        match text {
            "cpuset" => Some(Controller::Cpuset),
            "cpu" => Some(Controller::Cpu),
            "io" => Some(Controller::Io),
            "memory" => Some(Controller::Memory),
            "hugetlb" => Some(Controller::Hugetlb),
            "pids" => Some(Controller::Pids),
            "rdma" => Some(Controller::Rdma),
            "misc" => Some(Controller::Misc),
            "dmem" => Some(Controller::Dmem),
            _ => None,
        }
    }

    /// Whether the controller is among `IN_FORMAT_2`.
    pub fn is_in_format_2(self) -> bool
        ensures { result ≡ is_in_format_2 self }
    {
        Self::IN_FORMAT_2.iter().any(|known| self == *known)
    }

    /// The controller of a name among `IN_FORMAT_2`, where it is one.
    pub fn from_format_2(text: &str) -> Option<Controller>
        ensures found { result ≡ named_in_format_2 text.now }
        ensures named { IfSome result (λ controller. text.now ≡ controller_name controller) }
        ensures known { IfSome result (λ controller. is_in_format_2 controller ≡ true) }
    {
        match text {
            "cpu" => Some(Controller::Cpu),
            "memory" => Some(Controller::Memory),
            "pids" => Some(Controller::Pids),
            _ => None,
        }
    }
}

/// Which controllers tree texts and operation lines name: in formats 1 and 2 those of `IN_FORMAT_2`, in format 4 all.
#[derive(Clone, Copy, Debug, PartialEq, Eq)]
pub enum Vocabulary {
    Format2,
    Format4,
}

impl Vocabulary {
    /// Whether the controller has a name there.
    pub fn has(self, controller: Controller) -> bool
        ensures { result ≡ is_known self controller }
    {
        match self {
            Vocabulary::Format2 => controller.is_in_format_2(),
            Vocabulary::Format4 => true,
        }
    }

    /// The controller that a name means there, where it means one.
    pub fn controller(self, text: &str) -> Option<Controller>
        ensures found { result ≡ known_as self text.now }
        ensures named { IfSome result (λ controller. text.now ≡ controller_name controller) }
        ensures known { IfSome result (λ controller. is_known self controller ≡ true) }
    {
        match self {
            Vocabulary::Format2 => Controller::from_format_2(text),
            Vocabulary::Format4 => Controller::from_name(text),
        }
    }

    /// Whether each controller of a set has a name there.
    pub fn has_all(self, set: ControllerSet) -> bool
        ensures { result ≡ is_of self set }
    {
        Controller::ALL.iter().all(|controller| !set.contains(*controller) || self.has(*controller))
    }

    /// The smaller one where that has each controller of a set, else the greater one.
    pub fn of(set: ControllerSet) -> Vocabulary
        ensures { result ≡ vocabulary_of set }
    {
        if Vocabulary::Format2.has_all(set) {
            Vocabulary::Format2
        } else {
            Vocabulary::Format4
        }
    }
}

/// The limit files, in the order used everywhere.
#[derive(Clone, Copy, Debug, PartialEq, Eq)]
pub enum LimitFile {
    MaxDescendants,
    MaxDepth,
    CpuWeight,
    MemoryMin,
    MemoryLow,
    MemoryHigh,
    MemoryMax,
    PidsMax,
}

/// What a limit file is.
#[derive(Clone, Copy, Debug)]
struct Kind {
    name: &'static str,
    /// The controller that brings it; `None` for the two that stand at every cgroup.
    controller: Option<Controller>,
    /// The value of one that has just been made.
    default: Limit,
    /// The least and the greatest number that it takes.
    least: u64,
    greatest: u64,
    takes_max: bool,
}

impl Kind {
    /// A file that takes `max` and each number up to `LimitFile::GREATEST`.
    fn usual(name: &'static str, controller: Option<Controller>, default: Limit) -> Kind
        ensures name { result.name.now ≡ name.now }
        ensures controller { result.controller ≡ controller }
        ensures default { result.default ≡ default }
        ensures least { result.least ≡ 0 }
        ensures greatest { result.greatest ≡ 9223372036854775807 }
        ensures takes_max { result.takes_max ≡ true }
    {
        Kind {
            name,
            controller,
            default,
            least: 0,
            greatest: LimitFile::GREATEST,
            takes_max: true,
        }
    }

    /// A file that takes the numbers of a range alone.
    fn with_range(self, least: u64, greatest: u64) -> Kind
        ensures name { result.name.now ≡ self.name.now }
        ensures controller { result.controller ≡ self.controller }
        ensures default { result.default ≡ self.default }
        ensures least { result.least ≡ least }
        ensures greatest { result.greatest ≡ greatest }
        ensures takes_max { result.takes_max ≡ false }
    {
        Kind {
            least,
            greatest,
            takes_max: false,
            ..self
        }
    }
}

/// How many limit files controllers bring.
pub const BROUGHT_COUNT: usize = 6;

impl LimitFile {
    /// The limit files, in their order. The two of the core come first.
    pub const ALL: [LimitFile; 8] = [
        LimitFile::MaxDescendants,
        LimitFile::MaxDepth,
        LimitFile::CpuWeight,
        LimitFile::MemoryMin,
        LimitFile::MemoryLow,
        LimitFile::MemoryHigh,
        LimitFile::MemoryMax,
        LimitFile::PidsMax,
    ];

    /// Those that controllers bring, in their order.
    pub const BROUGHT: [LimitFile; BROUGHT_COUNT] = [
        LimitFile::CpuWeight,
        LimitFile::MemoryMin,
        LimitFile::MemoryLow,
        LimitFile::MemoryHigh,
        LimitFile::MemoryMax,
        LimitFile::PidsMax,
    ];

    /// The greatest number that a limit file takes, `cpu.weight` apart.
    pub const GREATEST: u64 = 9223372036854775807;

    /// What the file is.
    fn kind(self) -> Kind
        ensures name { result.name.now ≡ (kind_of self).name }
        ensures controller { result.controller ≡ (kind_of self).controller }
        ensures default { result.default ≡ (kind_of self).default }
        ensures least { result.least ≡ (kind_of self).least }
        ensures greatest { result.greatest ≡ (kind_of self).greatest }
        ensures takes_max { result.takes_max ≡ (kind_of self).takes_max }
    {
        let cpu = Some(Controller::Cpu);
        let memory = Some(Controller::Memory);
        let pids = Some(Controller::Pids);
        let none = Limit::At(0);
        match self {
            LimitFile::MaxDescendants => Kind::usual("cgroup.max.descendants", None, Limit::Max),
            LimitFile::MaxDepth => Kind::usual("cgroup.max.depth", None, Limit::Max),
            LimitFile::CpuWeight => Kind::usual("cpu.weight", cpu, Limit::At(100)).with_range(
                1, 10000,
            ),
            LimitFile::MemoryMin => Kind::usual("memory.min", memory, none),
            LimitFile::MemoryLow => Kind::usual("memory.low", memory, none),
            LimitFile::MemoryHigh => Kind::usual("memory.high", memory, Limit::Max),
            LimitFile::MemoryMax => Kind::usual("memory.max", memory, Limit::Max),
            LimitFile::PidsMax => Kind::usual("pids.max", pids, Limit::Max),
        }
    }

    /// The place of a file that a controller brings among `BROUGHT`.
    pub fn place(self) -> usize
        requires { 2 ≤ (kind_of self).number }
        ensures place { result ≡ place_of self }
        ensures within { result < length brought_files }
    {
        self as usize - 2
    }

    /// The name.
    pub fn name(self) -> &'static str
        ensures { result.now ≡ file_name self }
    {
        self.kind().name
    }

    /// The limit file of a name, where it is one.
    pub fn from_name(text: &str) -> Option<LimitFile>
        ensures found { result ≡ file_named text.now }
        ensures named { IfSome result (λ file. text.now ≡ file_name file) }
        ensures unnamed { IfNone result ((file : LimitFile) → text.now ≢ file_name file) }
    {
        file_of_name(text, &Self::ALL)
    }

    /// The controller that brings the file; `None` for the two that stand at every cgroup.
    pub fn controller(self) -> Option<Controller>
        ensures { result ≡ controller_of self }
    {
        self.kind().controller
    }

    /// Whether the file stands at a child of a cgroup that enables these controllers.
    pub fn stands_under(self, enabled: ControllerSet) -> bool
        ensures { result ≡ stands_under enabled self }
    {
        match self.controller() {
            None => true,
            Some(controller) => enabled.contains(controller),
        }
    }

    /// The value of a file that has just been made.
    pub fn default_value(self) -> Limit
        ensures { result ≡ default_value self }
    {
        self.kind().default
    }

    /// Whether the file takes a value: `cpu.weight` takes 1 to 10000, each other file `max` and 0 to `GREATEST`.
    pub fn accepts(self, value: Limit) -> bool
        ensures { result ≡ accepts self value }
    {
        let kind = self.kind();
        match value {
            Limit::Max => kind.takes_max,
            Limit::At(amount) => kind.least <= amount && amount <= kind.greatest,
        }
    }
}

/// The file of a name among these.
fn file_of_name(text: &str, files: &[LimitFile]) -> Option<LimitFile>
    ensures { result ≡ find (λ file. same_name text.now (file_name file)) files.now }
{
    files.iter().copied().find(|file| text == file.name())
}

/// An entry of a cgroup's directory that has an owner and a mode.
#[derive(Clone, Copy, Debug, PartialEq, Eq)]
pub enum EntryName {
    Dir,
    Procs,
    SubtreeControl,
    File(LimitFile),
    Other(OtherFile),
}

impl EntryName {
    /// The name; a directory's is `dir`.
    pub fn name(self) -> &'static str
        ensures { result.now ≡ entry_text self }
    {
        match self {
            EntryName::Dir => "dir",
            EntryName::Procs => "cgroup.procs",
            EntryName::SubtreeControl => "cgroup.subtree_control",
            EntryName::File(file) => file.name(),
            EntryName::Other(file) => file.name(),
        }
    }

    /// The entry of a name, where it is one.
    pub fn from_name(text: &str) -> Option<EntryName>
        ensures found { result ≡ entry_named text.now }
        ensures named { IfSome result (λ name. text.now ≡ entry_text name) }
        ensures unnamed { IfNone result ((name : EntryName) → text.now ≢ entry_text name) }
    {
        match EntryName::in_format_2(text) {
            Some(entry) => Some(entry),
            None => EntryName::beyond(text),
        }
    }

    /// The limit file beyond `LimitFile` of a name, where it is one.
    fn beyond(text: &str) -> Option<EntryName>
        ensures { result ≡ option_map Other (other_named text.now) }
    {
        OtherFile::from_name(text).map(EntryName::Other)
    }

    /// The entry of a name that texts of formats 1 and 2 have, where it is one.
    pub fn in_format_2(text: &str) -> Option<EntryName>
        ensures found { result ≡ entry_known_as Vocabulary.Format2 text.now }
    {
        match text {
            "dir" => Some(EntryName::Dir),
            "cgroup.procs" => Some(EntryName::Procs),
            "cgroup.subtree_control" => Some(EntryName::SubtreeControl),
            _ => LimitFile::from_name(text).map(EntryName::File),
        }
    }
}

/// The order of the listed controllers and limit files is the one used everywhere.
pub fn all_are_listed()
    ensures controllers { Controller.ALL ≡ all_controllers }
    ensures in_format_2 { Controller.IN_FORMAT_2 ≡ format_2_controllers }
    ensures files { LimitFile.ALL ≡ all_files }
    ensures brought { LimitFile.BROUGHT ≡ brought_files }
{}

/// The law of names: a controller, a limit file and an entry is found by its name, what is found has the name that was
/// sought, and no two names of a kind are equal.
pub fn names_are_exact()
    ensures controllers { AreNames controller_name controller_named }
    ensures files { AreNames file_name file_named }
    ensures entries { AreNames entry_text entry_named }
{}
