//! A count of what was measured, and how long it took.

use std::alloc::Global;

/// The number of presented packets or of printed bytes, and how many nanoseconds the presenting or printing took.
#[derive(Clone, Copy)]
pub struct Timed {
    pub count: u64,
    pub nanoseconds: u64,
}

impl Timed {
    /// The count and the nanoseconds as text, with a space between them.
    pub fn text(&self, alloc: Global) -> Option<String> {
        format!(in alloc; "{} {}", self.count, self.nanoseconds).ok()
    }
}
