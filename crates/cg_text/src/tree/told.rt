//! What is told of a document's fault: the row that has it, the keys that lead to it there, what stands at them, and what is wrong with that.
ghost use Rattle.std.specs.Prelude.{◌≡◌, Some, map, IfSome};
ghost use Rattle.std.specs.Option.{option_map, option_copied};
ghost use Rattle.toml.specs.View.{view, table_view};
ghost use Rattle.cg_text.specs.Told.{seen, element_at, numbered, row_at, place_of, name_in, held_in, entered};

pub mod keys;
mod rows;
mod texts;
mod together;

pub use crate::tree::said::vocabulary_at;
use crate::tree::said::{elements_at, integer_at, member, table_at, text_at};
use crate::tree::takes::Takes;
use cg_cgroup::files::{Controller, LimitFile, Vocabulary};
use cg_format::fault::{Place, TreeFault};
use keys::Kind;
use rows::{bad_controller, bad_entry, bad_value, misshapen};
pub use together::paths_of;
use together::{not_enabled, not_standing, orphan};
use toml::{Table, Value};

/// The keys that lead from a row to what is wrong in it; none where that is the row itself.
#[derive(Clone, Copy, Debug)]
pub struct At<'d> {
    pub table: Option<&'d str>,
    pub file: Option<&'d str>,
    pub key: Option<&'d str>,
}

impl<'d> At<'d> {
    /// The row itself.
    fn row() -> At<'d> {
        At {
            table: None,
            file: None,
            key: None,
        }
    }

    fn key(key: &'d str) -> At<'d> {
        At {
            table: None,
            file: None,
            key: Some(key),
        }
    }

    /// A key of the table at a key.
    fn inner(table: &'d str, key: &'d str) -> At<'d> {
        At {
            table: Some(table),
            file: None,
            key: Some(key),
        }
    }

    /// A key of a file's table.
    fn file(file: &'d str, key: &'d str) -> At<'d> {
        At {
            table: Some("files"),
            file: Some(file),
            key: Some(key),
        }
    }
}

/// What is wrong with what stands somewhere.
#[derive(Clone, Copy, Debug)]
pub enum Wrong<'d> {
    /// The row is no table.
    NoTable,
    /// A table of this kind has no such key.
    Unknown(Kind),
    /// The key has to be there.
    Missing,
    /// The key takes this.
    Mistyped(Takes),
    /// Somewhere in the row is the key `gid`, which format 1 has not.
    NoGroups,
    /// Somewhere in the row a mode has the bit 0o020, which format 1 has not.
    NoGroupBit,
    /// There is no such format.
    Format,
    /// This text names none of the controllers that the format has.
    NoController {
        text: &'d str,
        vocabulary: Vocabulary,
    },
    /// The text is no path.
    NoPath,
    /// No uid, gid or mode has this number.
    OutOfRange(i64),
    /// The file doesn't accept the value.
    NotAccepted(LimitFile),
    /// Of lines that a value has there is at least one.
    NoLines,
    /// This text is no line that a value has.
    NotALine(&'d str),
    /// An earlier row has the same.
    Again,
    /// No row has this path, which is the parent's.
    NoParent(&'d str),
    /// The row of the path above doesn't enable the controller; of the root's row: there is none such.
    NotEnabled {
        controller: &'d str,
        above: Option<&'d str>,
    },
    /// The row of the path above doesn't enable the controller that brings the file.
    NoFile {
        controller: Controller,
        above: &'d str,
    },
    /// The file never stands at the root.
    NotAtRoot,
    /// No PID has this number.
    NoPid(i64),
    /// No row has this path.
    Nowhere(&'d str),
    /// The row of this path enables controllers.
    Inner(&'d str),
}

/// Where in a row something is wrong, and what.
type Found<'d> = (At<'d>, Wrong<'d>);

/// What is told of a fault.
#[derive(Clone, Copy, Debug)]
pub struct Told<'d> {
    pub place: Place,
    /// The path of the row, or of the process's cgroup, where it has such a text.
    pub name: Option<&'d str>,
    pub at: At<'d>,
    /// What stands there.
    pub held: Option<&'d Value>,
    pub wrong: Wrong<'d>,
}

/// What is told of a fault of a document; nothing where the fault is of no row.
pub fn told_of<'d>(document: &'d Table, fault: TreeFault) -> Option<Told<'d>>
    ensures place { IfSome result (λ told. place_of fault ≡ Some told.place) }
    ensures name { IfSome result (λ told. option_copied told.name ≡ name_in told.place (row_at told.place (table_view document.now))) }
    ensures held { IfSome result (λ told. option_map (λ held. view held.now) told.held ≡ held_in told.at (row_at told.place (table_view document.now))) }
{
    let place = place_of(fault)?;
    let row = row_at(document, place);
    let (at, wrong) = match row {
        Some(row) => wrong_in(document, place, row, fault)?,
        None => no_table(fault)?,
    };
    Some(Told {
        place,
        name: name_in(place, row),
        at,
        held: held_in(at, row),
        wrong,
    })
}

/// The row that has a fault.
fn place_of(fault: TreeFault) -> Option<Place>
    ensures { result ≡ place_of fault }
{
    match fault {
        TreeFault::Format => Some(Place::Top),
        TreeFault::Shape(place)
        | TreeFault::BadController(place)
        | TreeFault::BadPath(place)
        | TreeFault::BadEntry(place)
        | TreeFault::BadValue(place)
        | TreeFault::Duplicate(place)
        | TreeFault::NoParent(place)
        | TreeFault::TopDown(place)
        | TreeFault::NoSuchFile(place)
        | TreeFault::BadPid(place)
        | TreeFault::DuplicatePid(place)
        | TreeFault::NoSuchPlace(place)
        | TreeFault::InternalProcess(place) => Some(place),
        _ => None,
    }
}

/// The table of a row.
fn row_at<'d>(document: &'d Table, place: Place) -> Option<&'d Table>
    ensures { seen result ≡ row_at place (table_view document.now) }
{
    match place {
        Place::Top => Some(document),
        Place::Cgroup(number) => numbered(elements_at(document, "cgroup"), number),
        Place::Process(number) => numbered(elements_at(document, "process"), number),
    }
}

/// The table of the row of a number.
fn numbered<'d>(elements: &'d [Value], number: u32) -> Option<&'d Table>
    ensures { seen result ≡ numbered (map view elements.now) number }
{
    element(elements, number)?.as_table()
}

/// The element of a number, from 1 on.
#[tactic(auto, using(crate::proofs::ToldLaws::seen_at))]
fn element<'d>(elements: &'d [Value], number: u32) -> Option<&'d Value>
    ensures { option_map (λ held. view held.now) result ≡ element_at (map view elements.now) number }
{
    if number == 0 {
        return None;
    }
    elements.get(number as usize - 1)
}

/// The path of a row, or of a process's cgroup.
fn name_in<'d>(place: Place, row: Option<&'d Table>) -> Option<&'d str>
    ensures { option_copied result ≡ name_in place (seen row.entry) }
{
    match place {
        Place::Top => None,
        Place::Cgroup(_) => text_at(row?, "path"),
        Place::Process(_) => text_at(row?, "at"),
    }
}

/// What stands in a row at the keys that lead there.
fn held_in<'d>(at: At<'_>, row: Option<&'d Table>) -> Option<&'d Value>
    ensures { option_map (λ held. view held.now) result ≡ held_in at.entry (seen row.entry) }
{
    let table = entered(at.file, entered(at.table, row));
    member(table?, at.key?)
}

/// The table at a key of a table; that table itself where no key is given.
fn entered<'d>(key: Option<&str>, table: Option<&'d Table>) -> Option<&'d Table>
    ensures { seen result ≡ entered (option_copied key.entry) (seen table.entry) }
{
    match key {
        Some(key) => table_at(table?, key),
        None => table,
    }
}

/// That a row is no table, which is a fault of form.
fn no_table<'d>(fault: TreeFault) -> Option<Found<'d>> {
    match fault {
        TreeFault::Shape(_) => Some((At::row(), Wrong::NoTable)),
        _ => None,
    }
}

/// Where a row is wrong, and what.
fn wrong_in<'d>(
    document: &'d Table,
    place: Place,
    row: &'d Table,
    fault: TreeFault,
) -> Option<Found<'d>> {
    match fault {
        TreeFault::Format => Some((At::key("format"), Wrong::Format)),
        TreeFault::Shape(_) => Some(misshapen(vocabulary_at(document), place, row)),
        TreeFault::BadController(_) => bad_controller(vocabulary_at(document), place, row),
        TreeFault::BadPath(_) => Some((At::key("path"), Wrong::NoPath)),
        TreeFault::BadEntry(_) => Some(bad_entry(place, row)),
        TreeFault::BadValue(_) => bad_value(row),
        TreeFault::Duplicate(_) => Some((At::key("path"), Wrong::Again)),
        TreeFault::NoParent(_) => orphan(row),
        TreeFault::TopDown(_) => not_enabled(document, row),
        TreeFault::NoSuchFile(_) => not_standing(document, row),
        TreeFault::BadPid(_) => Some((At::key("pid"), Wrong::NoPid(integer_at(row, "pid")?))),
        TreeFault::DuplicatePid(_) => Some((At::key("pid"), Wrong::Again)),
        TreeFault::NoSuchPlace(_) => Some((At::key("at"), Wrong::Nowhere(text_at(row, "at")?))),
        TreeFault::InternalProcess(_) => Some((At::key("at"), Wrong::Inner(text_at(row, "at")?))),
        _ => None,
    }
}
