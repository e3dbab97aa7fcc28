//! What values write to a hasher, as seen from the hash that it then returns.

use std::hash::{DefaultHasher, Hash, Hasher};

/// Returns the hash of a value.
pub fn fed_by<T: Hash>(value: &T) -> u64 {
    let mut hasher = DefaultHasher::new();
    value.hash(&mut hasher);
    hasher.finish()
}

/// Returns the hash of the given bytes.
pub fn fed_by_bytes(bytes: &[u8]) -> u64 {
    let mut hasher = DefaultHasher::new();
    hasher.write(bytes);
    hasher.finish()
}
