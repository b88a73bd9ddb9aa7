ghost use Rattle.std.specs.Prelude.{◌≡◌};
ghost use Rattle.planner.specs.Told.{fault_number};

use crate::planner::{HIGHEST_GRANT, HIGHEST_GRANT_SUM};
use search::HIGHEST_LIMIT;
use std::error::Error;
use std::fmt;

/// Why a planner refuses a call. Where several apply, the first is answered.
#[derive(Clone, Copy, PartialEq, Eq, Debug)]
pub enum Fault {
    /// 12: the limit is above the highest
    Limit,
    /// 13: load, while a task is at work
    AtWork,
    /// 14: work, while no task is at work
    NoTask,
    /// 15: the grant is not from 1 to the highest
    Grant,
    /// 16: with this grant, the sum since the load would be above the highest
    GrantSum,
    /// 17: fetch, while no plan is found
    NotFound,
    /// 18: drop, while no task is at work
    NothingToDrop,
}

impl Fault {
    /// The number of the fault, which is told outside.
    pub fn number(self) -> u8
        ensures { result ≡ fault_number self }
    {
        match self {
            Fault::Limit => 12,
            Fault::AtWork => 13,
            Fault::NoTask => 14,
            Fault::Grant => 15,
            Fault::GrantSum => 16,
            Fault::NotFound => 17,
            Fault::NothingToDrop => 18,
        }
    }
}

impl fmt::Display for Fault {
    fn fmt<W: fmt::Write>(&self, f: &mut fmt::Formatter<W>) -> fmt::Result {
        match self {
            Fault::Limit => write!(f, "the limit must be from 0 to {}", HIGHEST_LIMIT),
            Fault::AtWork => write!(f, "a task is at work"),
            Fault::NoTask => write!(f, "no task is at work"),
            Fault::Grant => write!(f, "a grant must be from 1 to {} looks", HIGHEST_GRANT),
            Fault::GrantSum => write!(
                f,
                "the grants since a load must come to at most {} looks",
                HIGHEST_GRANT_SUM
            ),
            Fault::NotFound => write!(f, "no plan is found"),
            Fault::NothingToDrop => write!(f, "no task is at work that could be dropped"),
        }
    }
}

impl Error for Fault {}
