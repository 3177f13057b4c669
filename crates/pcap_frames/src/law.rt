//! Laws of captures.

ghost use Rattle.std.specs.Prelude.{List, ℕ};
ghost use Rattle.std.specs.List.{AllByRecursion};
ghost use Rattle.pcap_frames.specs.declared.style.Style.{Style};
ghost use Rattle.pcap_frames.specs.Capture.{Record, HasSpelling, IsOne, ReadsBack};

/// A law: each list of bytes is a capture of exactly one style and one list of records, or has exactly one first
/// refusal.
pub fn one_capture()
    ensures { (bytes : List ℕ) → IsOne bytes }
{}

/// A law: a capture in its canonical spelling is a capture of exactly its style and its records. So reading the
/// canonical spelling back gives the same records.
pub fn capture_again()
    ensures { (style : Style) (records : List Record) → AllByRecursion (HasSpelling style) records → ReadsBack style records }
{}
