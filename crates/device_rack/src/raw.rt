//! A file of raw samples.

use crate::device::Device;
use crate::previous::Previous;
use crate::silent_bytes::Silence;
use crate::writing::write_samples;
use avtp_base::Failed;
use avtp_files::Sink;
use sample_schedule::Shown;

/// A device that takes items and writes their samples to a sink, in order, with silence for missing samples.
///
/// Units and flags add nothing. Between two batches of samples, the device writes silence from the end of the first
/// batch to the beginning of the second, even if there are units or flags between the batches. The length of the
/// silence is rounded to whole samples of the first batch's line, with half a sample rounded up, and is at most
/// 16,777,216 bytes. If the batches overlap, there is no silence. The items of all files of one run are one list, so
/// silence between two files follows the rule for silence between two batches. Nothing is buffered: all bytes of an
/// item are in the sink when `take` returns `Ok`. As long as no `take` has failed, the sink holds what it held when the
/// device was made, followed by the whole output. The first `take` that fails writes only a prefix of its item's
/// output.
#[derive(Drop)]
pub struct RawDevice<S> {
    sink: S,
    silence: Silence,
    previous: Option<Previous>,
    failed: bool,
}

impl<S: Sink + Drop> RawDevice<S> {
    ghost use Rattle.std.specs.Prelude.{◌≡◌};
    ghost use Rattle.device_rack.specs.Written.{IsNewRaw, raw_sink};

    /// A device that has taken nothing. Allocates nothing, and writes nothing.
    pub fn over(sink: S, silence: Silence) -> Self
        ensures { IsNewRaw S.state sink silence result }
    {
        RawDevice {
            sink,
            silence,
            previous: None,
            failed: false,
        }
    }

    /// The sink.
    pub fn sink(&self) -> &S
        ensures { result.now ≡ raw_sink self.now }
    {
        &self.sink
    }
}

impl<S: Sink + Drop> Device for RawDevice<S> {
    ghost use Rattle.std.specs.Prelude.{◌≡◌, ◌++◌, [], ◌∷◌, ◌||◌, List, false, None, OnOk, OnErr, IfSome, is_err};
    ghost use Rattle.avtp_base.specs.Faults.{IsCounted};
    ghost use Rattle.avtp_base.specs.States.{SinkState};
    ghost use Rattle.device_rack.specs.Devices.{FailsAsTold};
    ghost use Rattle.sample_schedule.specs.declared.shown.Shown.{Shown as ShownValue};
    ghost use Rattle.device_rack.specs.RawOutput.{raw};
    ghost use Rattle.device_rack.specs.Written.{AppendsUpTo, HasTakenRaw, raw_sink, raw_failed, silence_in};

    ghost took = { λ device items. (start : SinkState) × HasTakenRaw S.state start device items };

    ghost faults = { λ device. (S.state (raw_sink device)).faults };

    ghost failing = { λ device. None };

    fn take(&mut self, shown: &Shown) -> Result<(), Failed>
        ensures took { OnOk result ((start : SinkState) (items : List ShownValue) → HasTakenRaw S.state start self.old items → HasTakenRaw S.state start self.new (items ++ shown.now ∷ [])) }
        ensures refused { OnErr result ((start : SinkState) (items : List ShownValue) → HasTakenRaw S.state start self.old items → HasTakenRaw S.state start self.new items) }
        ensures part { OnErr result (raw_failed self.old ≡ false → (start : SinkState) (items : List ShownValue) → HasTakenRaw S.state start self.old items → AppendsUpTo start (S.state (raw_sink self.new)) (raw (silence_in self.old) items) (raw (silence_in self.old) (items ++ shown.now ∷ []))) }
        ensures failed { raw_failed self.new ≡ (raw_failed self.old || is_err result) }
        ensures silence { silence_in self.new ≡ silence_in self.old }
        ensures counted { IsCounted (S.state (raw_sink self.old)).faults (S.state (raw_sink self.new)).faults result }
    {
        match shown {
            Shown::Present(batch) if !batch.is_unit() => {
                let silent = Previous::silent_before(&self.previous, batch);
                let written = write_samples(
                    &mut self.sink,
                    self.silence,
                    silent,
                    batch.bytes.as_slice(),
                );
                match written {
                    Ok(()) => self.previous = Some(Previous::of(batch)),
                    Err(Failed) => self.failed = true,
                }
                written
            }
            _ => Ok(()),
        }
    }
}
