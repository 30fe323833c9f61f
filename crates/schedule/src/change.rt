//! A change of the day, and the departments and kinds that its numbers stand for.

ghost use Rattle.std.specs.Prelude.{◌≡◌, Some, ok_or};
ghost use Rattle.schedule.specs.Changes.{change_by, change_fits, department_number, department_of, department_name, department_named, kind_number, kind_of, kind_name, kind_named, unknown, nameless};

use crate::unknown::{UnknownName, UnknownNumber};
use std::fmt;
use std::str::FromStr;

/// Hours of a day, counted from 0.
pub const HOURS: u32 = 24;
/// Slots of an hour, counted from 0.
pub const SLOTS: u32 = 12;
/// The greatest value.
pub const LAST_VALUE: u32 = 999_999;

/// A change as it comes from a line or a panel: its numbers may be anything.
// kept: a department and a kind are numbers here, since any number is held and then refused as a whole (14, or a service's 9).
#[derive(Clone, Copy, PartialEq, Eq, Debug, Default)]
pub struct Change {
    pub department: u32,
    pub kind: u32,
    pub hour: u32,
    pub slot: u32,
    pub value: u32,
}

/// Who enters changes.
#[derive(Clone, Copy, PartialEq, Eq, Debug)]
pub enum Department {
    Sales,
    Programming,
}

/// What a change asks for.
#[derive(Clone, Copy, PartialEq, Eq, Debug)]
pub enum Kind {
    Put,
    Clear,
    Replace,
    Claim,
    Yield,
}

/// The number that stands for a department.
impl From<Department> for u32 {
    ghost from_gives = { λ department number. number ≡ department_number department };

    fn from(department: Department) -> u32 {
        match department {
            Department::Sales => 1,
            Department::Programming => 2,
        }
    }
}

/// The department that a number stands for.
impl TryFrom<u32> for Department {
    type Error = UnknownNumber;

    ghost try_from_gives = { λ number answer. answer ≡ ok_or (department_of number) (unknown number) };

    fn try_from(number: u32) -> Result<Department, UnknownNumber> {
        match number {
            1 => Ok(Department::Sales),
            2 => Ok(Department::Programming),
            _ => Err(UnknownNumber(number)),
        }
    }
}

impl Department {
    /// The department's name.
    // kept: names stand here and in `from_str`, as those of kinds and phases do, since no macro may write an impl.
    pub fn name(&self) -> &'static str
        ensures { result.now ≡ department_name self.now }
    {
        match self {
            Department::Sales => "sales",
            Department::Programming => "programming",
        }
    }
}

impl fmt::Display for Department {
    ghost output = { λ department. Some (department_name department) };

    fn fmt<W: fmt::Write>(&self, f: &mut fmt::Formatter<W>) -> fmt::Result {
        f.write_str(self.name())
    }
}

/// The department of a name.
impl FromStr for Department {
    type Err = UnknownName;

    ghost from_str_gives = { λ text answer. answer ≡ ok_or (department_named text) nameless };

    fn from_str(text: &str) -> Result<Department, UnknownName> {
        match text {
            "sales" => Ok(Department::Sales),
            "programming" => Ok(Department::Programming),
            _ => Err(UnknownName),
        }
    }
}

/// The number that stands for a kind.
impl From<Kind> for u32 {
    ghost from_gives = { λ kind number. number ≡ kind_number kind };

    fn from(kind: Kind) -> u32 {
        match kind {
            Kind::Put => 1,
            Kind::Clear => 2,
            Kind::Replace => 3,
            Kind::Claim => 4,
            Kind::Yield => 5,
        }
    }
}

/// The kind that a number stands for.
impl TryFrom<u32> for Kind {
    type Error = UnknownNumber;

    ghost try_from_gives = { λ number answer. answer ≡ ok_or (kind_of number) (unknown number) };

    fn try_from(number: u32) -> Result<Kind, UnknownNumber> {
        match number {
            1 => Ok(Kind::Put),
            2 => Ok(Kind::Clear),
            3 => Ok(Kind::Replace),
            4 => Ok(Kind::Claim),
            5 => Ok(Kind::Yield),
            _ => Err(UnknownNumber(number)),
        }
    }
}

impl Kind {
    /// The kind's name.
    pub fn name(&self) -> &'static str
        ensures { result.now ≡ kind_name self.now }
    {
        match self {
            Kind::Put => "put",
            Kind::Clear => "clear",
            Kind::Replace => "replace",
            Kind::Claim => "claim",
            Kind::Yield => "yield",
        }
    }
}

impl fmt::Display for Kind {
    ghost output = { λ kind. Some (kind_name kind) };

    fn fmt<W: fmt::Write>(&self, f: &mut fmt::Formatter<W>) -> fmt::Result {
        f.write_str(Kind::name(self))
    }
}

/// The kind of a name.
impl FromStr for Kind {
    type Err = UnknownName;

    ghost from_str_gives = { λ text answer. answer ≡ ok_or (kind_named text) nameless };

    fn from_str(text: &str) -> Result<Kind, UnknownName> {
        match text {
            "put" => Ok(Kind::Put),
            "clear" => Ok(Kind::Clear),
            "replace" => Ok(Kind::Replace),
            "claim" => Ok(Kind::Claim),
            "yield" => Ok(Kind::Yield),
            _ => Err(UnknownName),
        }
    }
}

/// A change by its numbers: department, kind, hour, slot, value.
impl From<[u32; 5]> for Change {
    ghost from_gives = { λ numbers change. change ≡ change_by numbers };

    fn from([department, kind, hour, slot, value]: [u32; 5]) -> Change {
        Change {
            department,
            kind,
            hour,
            slot,
            value,
        }
    }
}

impl Change {
    /// Whether every number is within its limits.
    // kept: the line's `check` names the field that is outside, which this need not; both ask the same constants.
    pub fn fits(&self) -> bool
        ensures { result ≡ change_fits self.now }
    {
        Department::try_from(self.department).is_ok()
            && Kind::try_from(self.kind).is_ok()
            && self.hour < HOURS
            && self.slot < SLOTS
            && self.value <= LAST_VALUE
    }
}
