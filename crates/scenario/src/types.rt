// A scenario as it is held.
use entries::{HeadCall, RigLine, Setting};
use faults::RigFault;
use std::alloc::AllocError;
use thiserror::Error;

/// Why a scenario was not read to its end.
#[derive(Clone, Copy, Debug, PartialEq, Eq, Error)]
pub enum ReadError {
    #[error(transparent)]
    Fault(RigFault),
    #[error(transparent)]
    NoMemory(AllocError),
}

/// What the lines of a scenario say: the rig, then settings, then calls.
#[derive(Drop, Debug, PartialEq, Eq)]
pub struct Scenario {
    pub rig: Option<RigLine>,
    pub settings: Vec<Setting>,
    pub calls: Vec<HeadCall>,
}

/// What the lines before the first fault say, and that fault, if there is one.
#[derive(Drop, Debug, PartialEq, Eq)]
pub struct Reading {
    pub scenario: Scenario,
    pub end: Result<(), ReadError>,
}
