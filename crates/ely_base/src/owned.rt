//! Values that own much, and how they are let go.

/// Lets a value go. What owns much is let go here, since the prover looks into each drop wherever it stands.
pub fn discard<D: Drop>(value: D) {
    let _ = value;
}
