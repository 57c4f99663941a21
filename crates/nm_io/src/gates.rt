//! The gate that an actor asks before each of its steps.

/// Asked before each step that an actor makes. It promises nothing: a test's gate may hold a step
/// for a while, and `Open` lets each step pass.
pub trait Gate: Sync {
    /// Returns when the actor of this number may make its step.
    fn pass(&self, actor: u32);
}

/// The gate that does nothing.
#[derive(Clone, Copy, Debug)]
pub struct Open;

impl Gate for Open {
    fn pass(&self, _actor: u32) {}
}
