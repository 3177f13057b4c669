//! The presenter's side of a ring.

ghost use Rattle.std.specs.Prelude.{◌≡◌, length};
ghost use Rattle.rtrb.specs.Ring.{received};
ghost use Rattle.presenter_ring.specs.state.Presented.{IsPresented};

use crate::gate::{Gate, Side};
use crate::presenter::Presenter;
use avtp_base::{Bytes, Failed};
use rtrb::{Consumer, Producer};
use sample_schedule::Shown;

/// The consumer's end of the ring that carries items, and the producer's end of the ring that returns the samples of
/// presented items.
#[derive(Drop)]
pub struct Back {
    pub consumer: Consumer<Shown>,
    pub samples: Producer<Bytes>,
    /// How many items were popped.
    pub pops: u64,
    ghost counted: { pops ≡ length (received consumer) },
}

impl Back {
    ghost use Rattle.std.specs.Prelude.{◌+◌, ◌<◌, ◌^◌, length};
    ghost use Rattle.rtrb.specs.Ring.{received};
    ghost use Rattle.presenter_ring.specs.state.Backs.{HasSpace, PresentsNext, TakesBackTurn};

    /// Pops one item and presents it. Returns whether there was an item in the ring.
    fn present_next<P: Presenter, G: Gate>(
        &mut self,
        presenter: &mut P,
        gate: &G,
    ) -> Result<bool, Failed>
        requires { length (received self.old.consumer) + 1 < 2 ^ 64 }
        ensures { PresentsNext P.handed P.faults presenter.old presenter.new self.old self.new result }
    {
        match self.consumer.pop() {
            Ok(shown) => {
                self.pops += 1;
                gate.step(Side::Pop, self.pops);
                present(presenter, shown, &mut self.samples)?;
                Ok(true)
            }
            Err(_) => Ok(false),
        }
    }

    /// The presenter's turn in a round: pops and presents at most `most` items, until the ring is empty or a
    /// presentation fails. If items were popped and no presentation failed, the presenter is then told to pause.
    pub fn take_turn<P: Presenter, G: Gate>(
        &mut self,
        presenter: &mut P,
        gate: &G,
        most: usize,
    ) -> Result<(), Failed>
        requires { HasSpace self.old most }
        ensures { TakesBackTurn P.handed P.faults presenter.old presenter.new self.old self.new result }
    {
        let pops = self.pops;
        for _ in 0..most {
            if !self.present_next(presenter, gate)? {
                break;
            }
        }
        if self.pops == pops {
            return Ok(());
        }
        presenter.pause()
    }
}

/// Presents an item, and sends its samples back to the receiver. If there is no free slot for the samples, they are
/// dropped.
#[inline(always)]
fn present<P: Presenter>(
    presenter: &mut P,
    shown: Shown,
    samples: &mut Producer<Bytes>,
) -> Result<(), Failed>
    ensures { IsPresented P.handed P.faults presenter.old presenter.new shown result }
{
    presenter.present(&shown)?;
    if let Shown::Present(batch) = shown {
        let _ = samples.push(batch.bytes);
    }
    Ok(())
}
