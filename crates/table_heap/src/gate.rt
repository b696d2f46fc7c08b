/// What a machine passes before each of its steps in `Bundle::run` and `Bundle::drive`, and leaves behind it. A test may hold it there, and
/// a gate may let one machine through at a time.
pub trait Gate: Sync {
    /// Machine `number`, counted from 0, is about to make a step.
    fn pass(&self, number: usize);

    /// Machine `number` has made the step before which it passed. Nothing is done here but by a gate that says so.
    fn leave(&self, _number: usize) {}

    /// Whether machines behind the gate take hints. A step that takes one is none of a schedule, so a gate that notes one lets none through.
    fn has_hints(&self) -> bool {
        true
    }
}

/// A gate that holds nobody.
#[derive(Clone, Copy)]
pub struct OpenGate;

impl Gate for OpenGate {
    fn pass(&self, _number: usize) {}
}
