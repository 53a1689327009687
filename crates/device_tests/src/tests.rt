//! What sources and sinks do when a device fails.

mod giving;
mod taking;

/// What sources hand out, and sinks take.
const OCTETS: [u8; 7] = [1, 2, 3, 4, 5, 6, 7];
