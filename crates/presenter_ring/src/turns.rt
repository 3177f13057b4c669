//! The turns of both sides, at the same time.

ghost use Rattle.presenter_ring.specs.state.Backs.{HasSpace, TakesBackTurn};
ghost use Rattle.presenter_ring.specs.state.Fronts.{CanTurn, TakesFrontTurn};

use crate::back::Back;
use crate::front::Front;
use crate::gate::Gate;
use crate::presenter::Presenter;
use crate::receiver::Receiver;
use avtp_base::Failed;
use std::thread::{Threads, join_mut};

/// Both sides take their turns, each in a thread of its own.
pub fn both_turns<T: Threads + Sync, R: Receiver, P: Presenter, G: Gate>(
    rt: &T,
    front: &mut Front,
    receiver: &mut R,
    back: &mut Back,
    presenter: &mut P,
    gate: &G,
    most: usize,
) -> Result<(), Failed>
    requires ready { CanTurn R.left R.ended receiver.old front.old most }
    requires space { HasSpace back.old most }
    ensures fed { TakesFrontTurn R.gave R.left R.ended receiver.old receiver.new front.old front.new }
    ensures presented { TakesBackTurn P.handed P.faults presenter.old presenter.new back.old back.new result }
{
    let ((), presented) = join_mut(
        rt,
        &mut ||
            requires { CanTurn R.left R.ended receiver.now front.now most }
            ensures { TakesFrontTurn R.gave R.left R.ended receiver.entry.now receiver.exit.now front.entry.now front.exit.now }
        { front.take_turn(receiver, gate, most) },
        &mut || -> Result<(), Failed>
            requires { HasSpace back.now most }
            ensures { TakesBackTurn P.handed P.faults presenter.entry.now presenter.exit.now back.entry.now back.exit.now result }
        { back.take_turn(presenter, gate, most) },
    );
    presented
}
