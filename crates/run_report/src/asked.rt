//! The listener that the words ask for.

ghost use Rattle.std.specs.Prelude.{◌≡◌};
ghost use Rattle.run_report.specs.Listener.{plan_of};

use avtp_words::ListenerOptions;
use listener::ListenPlan;

/// The plan of the listener that the words ask for.
pub fn plan(asked: &ListenerOptions) -> ListenPlan
    ensures { result ≡ plan_of asked.now }
{
    ListenPlan {
        stream: asked.stream,
        clock: asked.clock,
        buffer: asked.buffer,
        room: asked.room,
        look: asked.look,
        lead: asked.lead,
        shift: asked.shift,
    }
}
