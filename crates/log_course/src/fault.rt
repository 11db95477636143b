//! Why a log's groups aren't read.

ghost use Rattle.std.specs.Prelude.{◌≡◌};
ghost use Rattle.log_course.specs.Fault.{number_of};
ghost use Rattle.log_course.specs.declared.fault.CourseFault.TheVariants.{Log, Group, Place};
ghost use Rattle.log_course.specs.declared.fault.CourseError.TheVariants.{Memory, Fault};

use log_events::LogFault;
use log_groups::{GroupError, GroupFault};
use log_places::{PlaceError, PlaceFault};
use std::alloc::AllocError;
use thiserror::Error;

/// What is wrong with a log.
#[derive(Clone, Copy, Debug, PartialEq, Eq, Error)]
pub enum CourseFault {
    /// The file is no log that can be read.
    #[error("{0}")]
    Log(LogFault),
    /// Its events make no transactions.
    #[error("{0}")]
    Group(GroupFault),
    /// It doesn't stand where the one before it ended, or one of its positions goes back.
    #[error("{0}")]
    Place(PlaceFault),
}

impl CourseFault {
    /// The refusal's number: 140 to 147, 151, 153 to 159.
    pub fn number(self) -> u8
        ensures { result ≡ number_of self }
    {
        match self {
            CourseFault::Log(fault) => fault.number(),
            CourseFault::Group(fault) => fault.number(),
            CourseFault::Place(fault) => fault.number(),
        }
    }
}

/// Why a group isn't read.
#[derive(Clone, Copy, Debug, PartialEq, Eq, Error)]
pub enum CourseError {
    #[error("no memory is left")]
    Memory,
    #[error("{0}")]
    Fault(CourseFault),
}

impl From<AllocError> for CourseError {
    ghost from_gives = { λ _ error. error ≡ Memory };

    fn from(_error: AllocError) -> CourseError {
        CourseError::Memory
    }
}

impl From<CourseFault> for CourseError {
    ghost from_gives = { λ fault error. error ≡ Fault fault };

    fn from(fault: CourseFault) -> CourseError {
        CourseError::Fault(fault)
    }
}
