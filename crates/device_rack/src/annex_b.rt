//! A byte stream of H.264 units.

use crate::device::Device;
use crate::writing::write_unit;
use avtp_base::Failed;
use avtp_files::Sink;
use sample_schedule::Shown;

/// A device that takes items and writes their units to a sink, in order, each after a start code (ITU-T H.264, annex
/// B). Samples and flags add nothing.
///
/// As long as no `take` has failed, the sink holds what it held when the device was made, followed by the whole output.
/// The first `take` that fails writes only a prefix of its item's output.
#[derive(Drop)]
pub struct AnnexBDevice<S> {
    sink: S,
    failed: bool,
}

impl<S: Sink + Drop> AnnexBDevice<S> {
    ghost use Rattle.std.specs.Prelude.{◌≡◌};
    ghost use Rattle.device_rack.specs.Written.{IsNewUnits, annexb_sink};

    /// A device that has taken nothing. Allocates nothing, and writes nothing.
    pub fn over(sink: S) -> Self
        ensures { IsNewUnits S.state sink result }
    {
        AnnexBDevice {
            sink,
            failed: false,
        }
    }

    /// The sink.
    pub fn sink(&self) -> &S
        ensures { result.now ≡ annexb_sink self.now }
    {
        &self.sink
    }
}

impl<S: Sink + Drop> Device for AnnexBDevice<S> {
    ghost use Rattle.std.specs.Prelude.{◌≡◌, ◌++◌, [], ◌∷◌, ◌||◌, List, false, None, OnOk, OnErr, is_err};
    ghost use Rattle.avtp_base.specs.Faults.{IsCounted};
    ghost use Rattle.avtp_base.specs.States.{SinkState};
    ghost use Rattle.sample_schedule.specs.declared.shown.Shown.{Shown as ShownValue};
    ghost use Rattle.device_rack.specs.RawOutput.{annexb};
    ghost use Rattle.device_rack.specs.Written.{AppendsUpTo, HasTakenUnits, annexb_sink, annexb_failed};

    ghost took = { λ device items. (start : SinkState) × HasTakenUnits S.state start device items };

    ghost faults = { λ device. (S.state (annexb_sink device)).faults };

    ghost failing = { λ device. None };

    fn take(&mut self, shown: &Shown) -> Result<(), Failed>
        ensures took { OnOk result ((start : SinkState) (items : List ShownValue) → HasTakenUnits S.state start self.old items → HasTakenUnits S.state start self.new (items ++ shown.now ∷ [])) }
        ensures refused { OnErr result ((start : SinkState) (items : List ShownValue) → HasTakenUnits S.state start self.old items → HasTakenUnits S.state start self.new items) }
        ensures part { OnErr result (annexb_failed self.old ≡ false → (start : SinkState) (items : List ShownValue) → HasTakenUnits S.state start self.old items → AppendsUpTo start (S.state (annexb_sink self.new)) (annexb items) (annexb (items ++ shown.now ∷ []))) }
        ensures failed { annexb_failed self.new ≡ (annexb_failed self.old || is_err result) }
        ensures counted { IsCounted (S.state (annexb_sink self.old)).faults (S.state (annexb_sink self.new)).faults result }
    {
        match shown {
            Shown::Present(batch) if batch.is_unit() => {
                let written = write_unit(&mut self.sink, batch.bytes.as_slice());
                match written {
                    Ok(()) => {}
                    Err(Failed) => self.failed = true,
                }
                written
            }
            _ => Ok(()),
        }
    }
}
