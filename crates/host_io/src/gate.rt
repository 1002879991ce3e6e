/// What the pieces of a parallel loop pass.
pub trait Gate {
    /// Called at the start of each piece with its number, from 0. Pieces that run side by side share the gate.
    fn piece(&self, number: u32);
}

/// A gate that does nothing.
#[derive(Clone, Copy, Debug)]
pub struct OpenGate;

impl Gate for OpenGate {
    fn piece(&self, _number: u32) {}
}

fn share<G: Sync>(_gate: &G) {}

// Threads may share an open gate.
fn gates_are_shared(gate: &OpenGate) {
    share(gate);
}
