//! The gate that a client passes before each of its steps.

/// A gate, called before each step of a client. It returns nothing, so it affects only when the step runs.
pub trait Gate: Sync {
    /// Returns when the client may run this step.
    fn pass(&self, client: u32, step: u32);
}

/// The gate that lets every client pass at once.
#[derive(Clone, Copy, Debug, PartialEq, Eq)]
pub struct OpenGate;

impl Gate for OpenGate {
    fn pass(&self, _client: u32, _step: u32) {}
}
