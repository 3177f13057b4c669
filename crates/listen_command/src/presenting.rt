//! The presenter's side of `listen`.

ghost use Rattle.std.specs.Prelude.{[], ◌∷◌};
ghost use Rattle.run_report.specs.Yield.{HandsOn};

use avtp_base::Failed;
use avtp_files::Sink;
use avtp_text::Text;
use device_rack::Devices;
use presenter_ring::Presenter;
use sample_schedule::Shown;

/// The text of the shown items, the sink that the text is written to, and the devices, which get each item after its
/// text. Once the sink has failed, later items are neither written nor given to the devices, so the written text has no
/// gap.
#[derive(Drop)]
pub struct Presenting<'t, 's, 'd, S: Sink + Send, D: Devices + Send> {
    pub text: &'t mut Text,
    pub out: &'s mut S,
    pub rack: &'d mut D,
    /// `Err` once the sink has failed.
    pub result: Result<(), Failed>,
}

impl<'t, 's, 'd, S: Sink + Send, D: Devices + Send> Presenter for Presenting<'t, 's, 'd, S, D> {
    ghost use Rattle.std.specs.Prelude.{◌≡◌, Ok};
    ghost use Rattle.listen_command.specs.state.Presenting.{failures, GivesItems};
    ghost use Rattle.run_report.specs.Yield.{HandsOn};

    ghost handed = { λ begun now items. (now.text.ghost_name ≡ begun.text.ghost_name) × (now.out.ghost_name ≡ begun.out.ghost_name) × (now.rack.ghost_name ≡ begun.rack.ghost_name)
        × (begun.result ≡ Ok tt → GivesItems (HandsOn D.handed begun.rack.now now.rack.now)
        (S.state begun.out.now) (S.state now.out.now) begun.text.now now.text.now now.result items) };

    ghost faults = { λ presenting. failures presenting.result };

    fn present(&mut self, shown: &Shown) -> Result<(), Failed> {
        if self.result.is_err() {
            return Ok(());
        }
        self.result = self.text.shown(self.out, shown);
        self.result?;
        hand(self.rack, shown);
        Ok(())
    }

    fn pause(&mut self) -> Result<(), Failed> {
        if self.result.is_err() {
            return Ok(());
        }
        self.result = self.text.flush(self.out);
        self.result
    }
}

/// Gives an item to the devices.
fn hand<D: Devices>(devices: &mut D, shown: &Shown)
    ensures { HandsOn D.handed devices.old devices.new (shown.now ∷ []) }
{
    devices.hand_on(shown);
}
