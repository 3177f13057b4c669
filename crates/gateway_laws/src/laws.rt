//! Laws about what listeners present from the captures that a gateway makes. Each law is the contract of a function; a
//! call of the function does nothing.

ghost use Rattle.std.specs.Prelude.{◌≡◌, ◌≢◌, ◌%◌, ◌^◌, ◌<◌, ◌≤◌, ◌∷◌, ◌++◌, ℕ, ℤ, IfSome, List, None, Option, Some, false, length, map};
ghost use Rattle.am824_gateway.specs.Laws.{Cut};
ghost use Rattle.gateway_laws.specs.Noted.{cut_seen, nothing_found};
ghost use Rattle.sequence_track.specs.Findings.{findings};
ghost use Rattle.talk_plan.specs.Plan.{interval_of};
ghost use Rattle.gateway_laws.specs.Heard.{BeginsInTime, packets_heard};
ghost use Rattle.std.specs.List.{AllByRecursion, flat_map};
ghost use Rattle.sample_schedule.specs.declared.item.Packet.{Packet};
ghost use Rattle.sample_schedule.specs.Batches.{Presented};
ghost use Rattle.sample_schedule.specs.declared.accepted.Accepted.{Accepted};
ghost use Rattle.sample_schedule.specs.declared.entry.Entry.{Entry};
ghost use Rattle.sample_schedule.specs.declared.plan.SchedulePlan.{SchedulePlan};
ghost use Rattle.sample_schedule.specs.Laws.{presented};
ghost use Rattle.sample_schedule.specs.Schedule.{given, shown};
ghost use Rattle.sample_schedule.specs.Verdicts.{Clock};
ghost use Rattle.talker.specs.Frames.{capture_of, record_of};
ghost use Rattle.am824_gateway.specs.declared.scan.Shape.{Shape as ShapeValue};
ghost use Rattle.am824_gateway.specs.declared.scan.To.{To as ToValue};
ghost use Rattle.am824_gateway.specs.Laws.{HasRisingInstants, Rise, cuts_after, given_batches};
ghost use Rattle.am824_gateway.specs.Packets.{gateway_frames};
ghost use Rattle.am824_gateway.specs.Pieces.{Given as GivenOut, skip_of};
ghost use Rattle.am824_gateway.specs.declared.skip.Skip.TheVariants.{ShapeOff};
ghost use Rattle.gateway_laws.specs.Samples.{samples_presented, samples_sent};
ghost use Rattle.am824_gateway.specs.Scan.{IsShape, first_fault, shape_in};
ghost use Rattle.gateway_laws.specs.Carried.{CarryCuts, samples_heard};
ghost use Rattle.gateway_laws.specs.InOrder.{AreInOrder, IsNotFull};
ghost use Rattle.am824_gateway.specs.declared.scan.To.TheVariants.{Aaf, Am824};
ghost use Rattle.gateway_laws.specs.Kept.{Hears, Keeps};
ghost use Rattle.gateway_laws.specs.Presented.{HoldsOfBatches};
ghost use Rattle.gateway_laws.specs.Shaped.{IsShapedAs};
ghost use Rattle.gateway_laws.specs.Returned.{frames_made, gateway_records, other};
ghost use Rattle.gateway_laws.specs.Room.{ArePacketsSpread, HasDefaultRoom};
ghost use Rattle.listener.specs.declared.plan.ListenPlan.{ListenPlan};
ghost use Rattle.pcap_frames.specs.Capture.{Record};
ghost use Rattle.gateway_laws.specs.Stamped.{AreStamped, all_counted, packet_entries};

/// Assume two things: the items of a schedule arrive in the order of their first instants, and each item arrives at or
/// before its own first instant. If the buffer is never full, all items are presented, in the order of their first
/// instants.
pub fn items_in_order_are_presented()
    ensures { (clock : Clock) (plan : SchedulePlan) (entries : List Entry) (batches : List Presented) → AreInOrder clock plan entries batches → map (λ (a : Accepted). a.batch) (presented (given clock plan entries)) ≡ batches }
{}

/// Let each packet's timestamp belong to the packet's first sample. Let the packets arrive in time and in the order of
/// their timestamps. Suppose that a listener has no clock and that its buffer is never full. Then the listener presents
/// each packet once, in order. The instant of each sample is counted at the nominal rate from the timestamp of its own
/// packet.
pub fn stamped_packets_in_order_are_presented()
    ensures { (clock : Clock) (plan : SchedulePlan) (packets : List Packet) (instants : List ℤ) → plan.clock ≡ false → AreStamped packets instants → Rise instants
        → AllByRecursion IsNotFull (shown clock plan (packet_entries packets)) → map (λ (a : Accepted). a.batch) (presented (given clock plan (packet_entries packets))) ≡ all_counted packets instants }
{}

/// No value and no instant changes. Suppose that the instants of each packet's samples are counted from the packet's
/// timestamp at the nominal rate. Then the samples of all packets are those of the batches that are not skipped: in
/// order, with the same values at the same instants.
pub fn samples_are_kept()
    ensures { (to : ToValue) (shape : ShapeValue) (given_before : GivenOut) (batches : List Presented) → IsShape shape →
        flat_map (samples_sent to shape) (cuts_after to shape given_before batches) ≡ flat_map (samples_presented to shape) (given_batches to shape given_before batches) }
{}

/// Let packets carry the pieces of batches whose instants rise. If a listener has no clock and its buffer is never
/// full, the listener presents exactly the samples of the batches that were not skipped. Each sample is presented once,
/// in order, with the same value at the same instant.
pub fn packets_of_pieces_are_heard()
    ensures { (clock : Clock) (plan : SchedulePlan) (to : ToValue) (shape : ShapeValue) (given_before : GivenOut) (batches : List Presented) (packets : List Packet) → plan.clock ≡ false → IsShape shape → AllByRecursion HasRisingInstants batches
        → CarryCuts to shape packets (cuts_after to shape given_before batches) → AllByRecursion IsNotFull (shown clock plan (packet_entries packets))
        → flat_map (samples_heard to shape) (map (λ (a : Accepted). a.batch) (presented (given clock plan (packet_entries packets)))) ≡ flat_map (samples_presented to shape) (given_batches to shape given_before batches) }
{}

/// A listener reads the frames of a gateway as packets that carry the pieces of the batches. Each timestamp belongs to
/// the packet's first sample. AM824 timestamps also belong to the first sample, because block counts are raised to a
/// multiple of SYT_INTERVAL. If the instant of the first sample is 0 or later, a listener computes exactly this instant
/// from the timestamp.
pub fn frames_carry_the_pieces()
    ensures { (to : ToValue) (shape : ShapeValue) (given_before : GivenOut) (frame : ℕ) (batches : List Presented) → IsShape shape → given_before.block % interval_of shape.rate ≡ 0 → AllByRecursion BeginsInTime batches
        → CarryCuts to shape (packets_heard to shape frame (cuts_after to shape given_before batches)) (cuts_after to shape given_before batches) }
{}

/// `check` finds nothing in the frames of a gateway, whatever the batches: sequence numbers have no gaps, and there is
/// no media clock restart.
pub fn nothing_is_found_in_frames()
    ensures { (to : ToValue) (shape : ShapeValue) (id : ℕ) (given_before : GivenOut) (batches : List Presented) (earlier later : List Cut) (c : Cut) → cuts_after to shape given_before batches ≡ earlier ++ c ∷ later
        → findings (map (cut_seen to id) earlier) (cut_seen to id c) ≡ nothing_found }
{}

/// Let the batches begin at 0 or later and have rising instants, as all batches that a listener presents do. A gateway
/// makes a capture of the batches. The capture is read without a refusal, and the records of the capture are the
/// gateway's frames. Suppose that a listener has no clock and that its buffer is never full. Then the listener presents
/// exactly the samples of the batches that were not skipped: in order, each once, with the same values at the same
/// instants. `check` finds nothing in the capture.
pub fn captures_of_pieces_are_kept()
    ensures { (to : ToValue) (shape : Option ShapeValue) (id : ℕ) (batches : List Presented) → IfSome shape IsShape → id < 2 ^ 64 → AllByRecursion BeginsInTime batches
        → Keeps to shape id batches (capture_of (gateway_frames to shape id batches)) }
{}

/// Let the packets of a gateway be presented at least 500 ns apart. The buffer of a listener without a clock is then
/// never full if the buffer has at least the default size. The reason: each packet arrives at most 2 ms before it is
/// presented.
pub fn default_buffers_are_never_full()
    ensures { (to : ToValue) (shape : Option ShapeValue) (id : ℕ) (batches : List Presented) (plan : ListenPlan) → IfSome shape IsShape → id < 2 ^ 64 → AllByRecursion BeginsInTime batches → ArePacketsSpread to shape batches → HasDefaultRoom id plan
        → Hears id plan (gateway_records to shape id batches) }
{}

/// If a listener presents a batch, the batch begins at 0 or later, and the instants of the batch rise. The law holds
/// for any records, with or without a clock. The law also holds for the batches that are already certain to be
/// presented, whatever records follow.
pub fn presented_batches_begin_in_time()
    ensures { (plan : ListenPlan) (records : List Record) → HoldsOfBatches BeginsInTime plan records }
{}

/// If a scan finds no fault in the records, each batch that a listener presents from these records has the shape that
/// the scan finds. Hence a gateway never skips one of these batches for its shape. If the stream has no shape, nothing
/// is presented.
pub fn presented_batches_have_the_shape()
    ensures held { (to : ToValue) (plan : ListenPlan) (records : List Record) → first_fault to plan.stream records ≡ None → HoldsOfBatches (IsShapedAs to (shape_in plan.stream records)) plan records }
    ensures kept { (to : ToValue) (shape : Option ShapeValue) (given : GivenOut) (batch : Presented) → IsShapedAs to shape batch → skip_of to shape given batch ≢ Some ShapeOff }
{}

/// The capture that a gateway made can be converted back, whatever the batches. A scan for the other format finds no
/// fault in the capture. If there is a frame, the scan finds the gateway's own shape.
pub fn captures_of_pieces_can_be_turned()
    ensures fault { (to : ToValue) (shape : Option ShapeValue) (id : ℕ) (batches : List Presented) → IfSome shape IsShape → id < 2 ^ 64 → first_fault (other to) id (gateway_records to shape id batches) ≡ None }
    ensures shape { (to : ToValue) (shape : ShapeValue) (id : ℕ) (batches : List Presented) → IsShape shape → id < 2 ^ 64 → 1 ≤ length (gateway_records to (Some shape) id batches)
        → shape_in id (gateway_records to (Some shape) id batches) ≡ Some shape }
{}

/// Take AM824 that a gateway made. Convert this AM824 to PCM under any stream ID, and convert the PCM back to AM824
/// under the original ID. For each conversion, use the shape that a scan finds. The AM824 that results has the same
/// bytes as the original AM824. The law requires listeners that have no clock and whose buffers are never full. Buffers
/// of at least the default size are never full if the packets are presented at least 500 ns apart.
pub fn am824_comes_back()
    ensures heard { (shape : Option ShapeValue) (id via : ℕ) (batches : List Presented) (there back : ListenPlan) → IfSome shape IsShape → id < 2 ^ 64 → via < 2 ^ 64 → AllByRecursion BeginsInTime batches
        → Hears id there (gateway_records Am824 shape id batches) → Hears via back (map record_of (frames_made Aaf there via (gateway_records Am824 shape id batches)))
        → frames_made Am824 back id (map record_of (frames_made Aaf there via (gateway_records Am824 shape id batches))) ≡ gateway_frames Am824 shape id batches }
    ensures by_default { (shape : Option ShapeValue) (id via : ℕ) (batches : List Presented) (there back : ListenPlan) → IfSome shape IsShape → id < 2 ^ 64 → via < 2 ^ 64 → AllByRecursion BeginsInTime batches
        → ArePacketsSpread Am824 shape batches → HasDefaultRoom id there → HasDefaultRoom via back
        → frames_made Am824 back id (map record_of (frames_made Aaf there via (gateway_records Am824 shape id batches))) ≡ gateway_frames Am824 shape id batches }
{}
