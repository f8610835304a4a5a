use embed_base::{PlainString, Status};

/// What a command writes, and the status with which it ends.
#[derive(Debug, Drop)]
pub struct Transcript {
    pub status: Status,
    pub text: PlainString,
}
