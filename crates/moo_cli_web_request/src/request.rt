//! What a request asks for.
use crate::refusal::Refusal;

/// What the bytes of a request ask for.
#[derive(Clone, Copy, Debug, PartialEq, Eq)]
pub enum Request {
    /// Nothing yet: its head isn't whole.
    Incomplete,
    /// The page.
    Page,
    /// A WebSocket: the value that accepts its key, and the length of the head. The bytes after the head are frames.
    Upgrade([u8; 28], usize),
    /// Something that it doesn't get.
    Refused(Refusal),
}
