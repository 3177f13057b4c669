//! Laws of the reports of `show`, `check` and `listen`.

ghost use Rattle.std.specs.Prelude.{◌≡◌, ℕ, List, Some, take, true};
ghost use Rattle.capture_io.specs.Ends.{end_of};
ghost use Rattle.capture_io.specs.Formats.{AreBytes, as_classic, is_pcapng, records_in};
ghost use Rattle.run_report.specs.Halt.{no_halt};
ghost use Rattle.run_report.specs.Reading.{file_status, file_yield, Report};

/// `show`, `check` and `listen` report a pcapng capture in the same way as a little-endian classic capture that has
/// nanosecond timestamps and the same records. Only one thing depends on the pcapng file itself: how the reading ends.
/// The end of the reading depends on the file's first refused field, or on the limit on the file's bytes.
pub fn pcapng_reports()
    ensures { (report : Report) (limit : ℕ) (bytes : List ℕ) → AreBytes (take limit bytes) → is_pcapng (take limit bytes) ≡ true →
        (file_status report limit (Some bytes) no_halt ≡ report.status (records_in (as_classic (take limit bytes))) (end_of limit bytes))
        × (file_yield report limit (Some bytes) no_halt ≡ report.yields (records_in (as_classic (take limit bytes))) (end_of limit bytes)) }
{}
