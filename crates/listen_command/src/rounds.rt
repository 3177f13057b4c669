//! Runs the two threads of `listen`, round by round, over a pipe.

ghost use Rattle.std.specs.Prelude.{◌≡◌, [], Ok, None};
ghost use Rattle.run_report.specs.Yield.{HandsOn};
ghost use Rattle.presenter_ring.specs.Pipes.{ended_with, given_to, waiting_in};
ghost use Rattle.capture_hearing.specs.Hearing.{IsAtReading};
ghost use Rattle.listen_command.specs.state.Listen.{HearsItems};

use crate::presenting::Presenting;
use crate::receiving::Receiving;
use avtp_base::Failed;
use avtp_files::{Shelf, Sink};
use device_rack::Devices;
use presenter_ring::{Gate, Pipe, Round};
use run_report::Machine;
use std::thread::Threads;

/// Runs rounds until the capture was heard and all shown items are presented, or until the sink fails.
pub fn present_all<T: Threads + Sync, F: Shelf + Send, S: Sink + Send, G: Gate, D: Devices + Send>(
    machine: &Machine<'_, T, G>,
    pipe: &mut Pipe,
    receiver: &mut Receiving<'_, '_, F>,
    presenter: &mut Presenting<'_, '_, '_, S, D>,
) -> Result<(), Failed>
    requires pipe { (waiting_in pipe.old ≡ []) × (ended_with pipe.old ≡ None) × (given_to pipe.old ≡ 0) }
    requires begun { IsAtReading (F.state receiver.old.shelf.now).slots receiver.old.hearing.now.source receiver.old.hearing.now.stage × (presenter.old.result ≡ Ok tt) }
    ensures same { (receiver.new.shelf.ghost_name ≡ receiver.old.shelf.ghost_name) × (receiver.new.hearing.ghost_name ≡ receiver.old.hearing.ghost_name)
        × (presenter.new.text.ghost_name ≡ presenter.old.text.ghost_name) × (presenter.new.out.ghost_name ≡ presenter.old.out.ghost_name) × (presenter.new.rack.ghost_name ≡ presenter.old.rack.ghost_name) }
    ensures hears { HearsItems (HandsOn D.handed presenter.old.rack.now presenter.new.rack.now) (F.state receiver.old.shelf.now) (F.state receiver.new.shelf.now)
        receiver.old.hearing.now.source receiver.new.hearing.now.source receiver.old.hearing.now.listener receiver.new.hearing.now.listener receiver.new.hearing.now.stage
        (S.state presenter.old.out.now) (S.state presenter.new.out.now) presenter.old.text.now presenter.new.text.now result }
{
    loop {
        match pipe.round(machine.rt, receiver, presenter, machine.gate) {
            Round::More => {}
            Round::Drained => return Ok(()),
            Round::PresentFault => return Err(Failed),
        }
    }
}
