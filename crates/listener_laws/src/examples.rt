//! A small capture that meets the premises of the laws. Each call only states its contract, and does nothing.

ghost use Rattle.std.specs.Prelude.{pos};
ghost use Rattle.packet_journal.specs.Deliveries.{Delivery};
ghost use Rattle.packet_journal.specs.Examples.{clocked_packets};
ghost use Rattle.listener.specs.Laws.{HearsTalker};
ghost use Rattle.listener_laws.specs.Anywhere.{ComesInTime, MustBePresented};
ghost use Rattle.listener_laws.specs.Examples.{clocked_listener, swapped_records};

use listener::laws::carried_packets_are_heard;
use packet_journal::examples::clocked_packets_conform;
use packet_journal::laws::{carried_clock_packet_is_delivered, carried_packet_is_delivered};

/// A listener with the talker's clock adds a microsecond to the clock's timestamps. The listener gets two packets of
/// the clock, then packet 34, and then packet 33 twice. The first copy of packet 33 must be presented at the instants
/// that the clock gives. The second copy comes in time, too, so it is a repeat.
pub fn clocked_copies_are_so()
    ensures heard { HearsTalker (pos 1000) clocked_packets clocked_listener swapped_records }
    ensures first { (d : Delivery) × MustBePresented clocked_packets clocked_listener swapped_records 3 33 d }
    ensures second { (d : Delivery) × ComesInTime clocked_packets clocked_listener swapped_records 4 33 d }
{
    clocked_packets_conform();
    carried_packets_are_heard();
    carried_packet_is_delivered();
    carried_clock_packet_is_delivered();
}
