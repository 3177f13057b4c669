//! Laws of packets and their copies. Each call only states its contract, and does nothing.

ghost use Rattle.std.specs.Prelude.{◌≡◌, ◌<◌, ℕ, ℤ, true, List, Option};
ghost use Rattle.pcap_frames.specs.Capture.{Record};
ghost use Rattle.stream_journal.specs.Conforming.{IsVideo};
ghost use Rattle.stream_journal.specs.Delivered.{AreNear};
ghost use Rattle.stream_journal.specs.Journal.{Journal, Part};
ghost use Rattle.packet_journal.specs.InUnits.{IsInUnit};
ghost use Rattle.packet_journal.specs.Deliveries.{Delivery, belongs, clock_kinds, delivery, stream_kinds};
ghost use Rattle.packet_journal.specs.Packets.{IsConforming, PacketJournal};
ghost use Rattle.packet_journal.specs.Delivered.{Delivers, IsClockCopyOf, IsCopyOf, Origin, stream_numbers};
ghost use Rattle.packet_journal.specs.Carried.{AllCarry, AllCarryFrom, Carries, CarriesClock};
ghost use Rattle.packet_journal.specs.Laws.{IsClockReadAs, IsReadAs};

/// A listener reads a copy of a packet as the packet that was sent, whatever trailing bytes the copy has.
pub fn copies_are_read()
    ensures packet { (shift : ℤ) (p : PacketJournal) (lead n : ℕ) (d : Delivery) → IsConforming shift p → IsCopyOf p lead n d → IsReadAs (p.packet n) d.packet }
    ensures clock { (shift : ℤ) (p : PacketJournal) (m : ℕ) (d : Delivery) → IsConforming shift p → IsClockCopyOf p m d → IsClockReadAs (p.clock_packet m) d.packet }
{
    cvf_format::laws::packet_again();
}

/// If a record carries a packet of a conforming talker, the record belongs to the talker's stream, and the record's
/// delivery is a copy of the packet.
pub fn carried_packet_is_delivered()
    ensures belongs { (shift : ℤ) (p : PacketJournal) (lead n : ℕ) (r : Record) → IsConforming shift p → Carries p lead n r → belongs stream_kinds p.stream r.bytes ≡ true }
    ensures copy { (p : PacketJournal) (lead n frame : ℕ) (r : Record) → Carries p lead n r → IsCopyOf p lead n (delivery frame r) }
{
    cvf_format::laws::packet_again();
}

/// Records carry some packets of a conforming talker. If the records were captured in time, and the packet numbers of
/// adjacent fragments are near each other, the records deliver the talker's journal.
pub fn carried_packets_are_delivered()
    ensures { (shift : ℤ) (p : PacketJournal) (clock : Option ℕ) (lead : ℕ) (numbers : List ℕ) (records : List Record) → IsConforming shift p → AllCarry p lead numbers records → AreNear p.times numbers → Delivers p clock lead records }
{
    cvf_format::laws::packet_again();
}

/// If a record carries a packet of a conforming talker's clock, the record belongs to the clock, according to the
/// record's subtype and stream ID. The delivery of the record is a copy of the packet.
pub fn carried_clock_packet_is_delivered()
    ensures belongs { (shift : ℤ) (p : PacketJournal) (m : ℕ) (r : Record) → IsConforming shift p → CarriesClock p m r → belongs clock_kinds p.clock r.bytes ≡ true }
    ensures copy { (p : PacketJournal) (m frame : ℕ) (r : Record) → CarriesClock p m r → IsClockCopyOf p m (delivery frame r) }
{}

/// Records carry some packets of a conforming talker's stream and clock. If the records of the stream were captured in
/// time, and the packet numbers of adjacent fragments are near each other, the records deliver the talker's journal.
/// The times at which the records of the clock were captured do not matter. The law holds whether or not a listener
/// uses a clock.
pub fn records_of_both_are_delivered()
    ensures { (shift : ℤ) (p : PacketJournal) (clock : Option ℕ) (lead : ℕ) (origins : List Origin) (records : List Record) → IsConforming shift p → AllCarryFrom p lead origins records → AreNear p.times (stream_numbers origins) → Delivers p clock lead records }
{
    cvf_format::laws::packet_again();
}

/// Each packet of H.264 belongs to one NAL unit, and the talker sent all packets of the unit. The unit is whole in a
/// single packet, or its packets carry a first fragment, then only middle ones, and then a last one.
pub fn packets_are_of_units()
    ensures { (j : Journal) (part : ℕ → Part) (n : ℕ) → IsVideo j part → n < j.packets → IsInUnit j part n }
{}
