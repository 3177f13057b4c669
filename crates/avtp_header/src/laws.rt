//! Laws of stream headers. Each call only states its contract, and does nothing.

ghost use Rattle.std.specs.Prelude.{◌≡◌, ◌≤◌, ◌++◌, false, length, drop, List, ℕ};
ghost use Rattle.avtp_base.specs.Layout.{Fits, reserved_ranges, spelling};
ghost use Rattle.avtp_base.specs.Octets.{AreBytes, any_set};
ghost use Rattle.avtp_base.specs.Rows.{IsSpelledOnce};
ghost use Rattle.avtp_header.specs.declared.header.StreamHeader.{StreamHeader};
ghost use Rattle.avtp_header.specs.Header.{SpellsHeader, header_layout, header_refusal};

/// If nothing refuses the bytes, they begin with exactly one header. If the bytes are refused, they begin with no
/// stream header.
pub fn one_header()
    ensures { (bytes : List ℕ) → IsSpelledOnce (header_refusal bytes) (λ (h : StreamHeader). SpellsHeader bytes h) }
{}

/// The bytes written for a header spell that header, whatever bytes follow.
pub fn header_again()
    ensures { (h : StreamHeader) (trail : List ℕ) → Fits header_layout h → SpellsHeader (spelling header_layout h ++ trail) h }
{}

/// Suppose that bytes begin with a header, all reserved bits are 0, and bytes 16 to 19, 22 and 23 are 0. Then the bytes
/// begin with exactly what a writer writes for the header.
pub fn one_spelling()
    ensures { (bytes : List ℕ) (h : StreamHeader) → AreBytes bytes → SpellsHeader bytes h → 24 ≤ length bytes
        → any_set (reserved_ranges header_layout) bytes ≡ false → bytes ≡ spelling header_layout h ++ drop 24 bytes }
{}
