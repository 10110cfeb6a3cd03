//! What is kept of native bodies.

/// The state of a native body. No native domain is built yet, and a machine has no frame of one.
#[derive(Debug, Drop)]
pub struct NativeState {
    pub calls: u64,
}
