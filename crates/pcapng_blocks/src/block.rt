//! The blocks of a pcapng capture.

/// The kinds of blocks that are distinguished (draft-ietf-opsawg-pcapng, section 4).
#[derive(Clone, Copy, Debug, PartialEq, Eq)]
pub enum Kind {
    /// A section header, which begins a section.
    Section,
    /// An interface description.
    Interface,
    /// An enhanced packet block.
    Packet,
    /// A block that is skipped.
    Other,
}

/// What follows next in a capture.
#[derive(Clone, Copy, Debug, PartialEq, Eq)]
pub enum Stage {
    /// A block.
    Block,
    /// An option of an interface description.
    Option,
    /// The trailer of a block, which repeats the block's total length.
    Trailer,
}
