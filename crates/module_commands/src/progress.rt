//! What follows how far a run is.

/// Is called once for each rewrite or change that is made.
pub trait Progress {
    fn count(&mut self);
}
