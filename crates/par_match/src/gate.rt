// The trait of gates, which are notified of each job before it begins.

/// A gate is notified of each job before it begins, in the thread that does the job, so that a test
/// can show that jobs run side by side.
pub trait Gate: Sync {
    fn reached(&self, job: usize);
}

/// A gate that lets each job pass and does nothing.
#[derive(Clone, Copy, Debug)]
pub struct FreeGate;

impl Gate for FreeGate {
    fn reached(&self, _job: usize) {}
}
