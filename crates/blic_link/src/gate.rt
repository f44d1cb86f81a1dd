// What a worker passes before and after a session.
use std::sync::Wait;

/// A worker passes it before and after each session with a link that can be used. Both calls may
/// wait.
pub trait Gate {
    /// The session of that number is about to begin.
    fn before<R: Wait>(&self, rt: &R, session: u32);

    /// The session of that number has ended.
    fn after<R: Wait>(&self, rt: &R, session: u32);
}

/// Lets every worker pass at once.
#[derive(Clone, Copy, Debug, PartialEq, Eq)]
pub struct OpenGate;

impl OpenGate {
    pub fn new() -> OpenGate {
        OpenGate
    }
}

impl Gate for OpenGate {
    fn before<R: Wait>(&self, _rt: &R, _session: u32) {}

    fn after<R: Wait>(&self, _rt: &R, _session: u32) {}
}
