/// What a lane passes before it runs a body, so that a caller can hold lanes back. Nothing is promised of it.
pub trait Gate {
    /// Passes the gate on this lane. A gate that keeps a handle for it may wait here.
    fn pass(&self, lane: u32);
}

/// A gate that is always open.
#[derive(Clone, Copy, Debug, PartialEq, Eq)]
pub struct OpenGate;

impl Gate for OpenGate {
    fn pass(&self, _lane: u32) {}
}
