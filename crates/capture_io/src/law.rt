//! Laws of captures in either layout.

ghost use Rattle.std.specs.Prelude.{◌≡◌, ℕ, List, None, true};
ghost use Rattle.capture_io.specs.CaptureWriting.{KeepsCaptures};
ghost use Rattle.capture_io.specs.Formats.{AreBytes, as_classic, is_pcapng, records_in, refusal_in};

/// A law: if the records of a pcapng capture are written as a little-endian classic capture with nanoseconds, the
/// classic capture has exactly these records. Nothing in the classic capture is refused.
pub fn classic_again()
    ensures { (bytes : List ℕ) → AreBytes bytes → is_pcapng bytes ≡ true → (records_in (as_classic bytes) ≡ records_in bytes) × (refusal_in (as_classic bytes) ≡ None) }
{}

/// A law: opening, reading and closing other files of the shelf does not change a capture that is being written. The
/// reason: opening, reading and closing other files changes no file, and does not change the writer's slot. Let each of
/// two successive calls keep all slots except the writer's, in the sense of `KeepsBeside`. The two calls together then
/// keep these slots, too.
pub fn captures_are_written_beside_others()
    ensures { KeepsCaptures }
{}
