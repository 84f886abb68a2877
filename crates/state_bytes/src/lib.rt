// The bytes of a state for C (include/bridge.h): written, and read back.
#![tactic(auto)]

pub mod decoding;
pub mod encoding;
