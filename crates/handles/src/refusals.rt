// What a call by handle that is not granted gives.
use rules::Refusal;
use thiserror::Error;

/// Why it is not granted, and the handle that comes back. It prints as the refusal.
#[derive(Debug, PartialEq, Eq, Drop, Error)]
#[error("{refusal}")]
pub struct Refused<H> {
    pub refusal: Refusal,
    pub handle: H,
}
