//! Laws of a gateway. Each law is stated by the contract of a call that does nothing.

ghost use Rattle.std.specs.Prelude.{◌≡◌, ◌++◌, ◌∷◌, [], ℕ, IfSome, List, None, map};
ghost use Rattle.std.specs.List.{AllByRecursion};
ghost use Rattle.talker.specs.Frames.{RiseByArrival};
ghost use Rattle.sample_schedule.specs.Batches.{Presented};
ghost use Rattle.am824_gateway.specs.declared.scan.Shape.{Shape as ShapeValue};
ghost use Rattle.am824_gateway.specs.declared.scan.To.{To as ToValue};
ghost use Rattle.am824_gateway.specs.Laws.{HasRisingInstants, IsFrame, Rise, cut_frame, cut_instant, cuts_after};
ghost use Rattle.am824_gateway.specs.Packets.{frames_after, frames_with};
ghost use Rattle.am824_gateway.specs.Pieces.{Given, given_by, skip_by, unless};
ghost use Rattle.am824_gateway.specs.Scan.{IsShape, first_fault, shape_in};
ghost use Rattle.pcap_frames.specs.Capture.{Record};

/// If one more batch is not skipped, its frames follow the frames of the batches before it. So the frames are the same
/// whether a gateway takes the batches one by one or as one list.
pub fn batches_follow_each_other()
    ensures frames { (to : ToValue) (shape : ShapeValue) (id : ℕ) (given : Given) (batches : List Presented) (batch : Presented) →
        frames_after to shape id given (batches ++ batch ∷ []) ≡ frames_after to shape id given batches ++ unless (skip_by to shape (given_by to shape given batches) batch) (frames_with to shape id (given_by to shape given batches) batch) [] }
    ensures given { (to : ToValue) (shape : ShapeValue) (given : Given) (batches : List Presented) (batch : Presented) →
        given_by to shape given (batches ++ batch ∷ []) ≡ given_by to shape (given_by to shape given batches) (batch ∷ []) }
{}

/// If the instants of each batch rise, the instants of all pieces rise. Each packet is presented after all earlier
/// packets, and does not arrive before the previous packet. So a listener presents the packets in the order in which
/// they are sent.
pub fn instants_rise_through_all_pieces()
    ensures frames { (to : ToValue) (shape : ShapeValue) (id : ℕ) (given : Given) (batches : List Presented) →
        frames_after to shape id given batches ≡ map (cut_frame to shape id) (cuts_after to shape given batches) }
    ensures rise { (to : ToValue) (shape : ShapeValue) (given : Given) (batches : List Presented) → AllByRecursion HasRisingInstants batches →
        Rise (map cut_instant (cuts_after to shape given batches)) }
    ensures arrivals { (to : ToValue) (shape : ShapeValue) (id : ℕ) (given : Given) (batches : List Presented) → AllByRecursion HasRisingInstants batches →
        RiseByArrival (frames_after to shape id given batches) }
{}

/// For any batches, no frame is too long for Ethernet.
pub fn frames_are_short_enough()
    ensures { (to : ToValue) (shape : ShapeValue) (id : ℕ) (given : Given) (batches : List Presented) → IsShape shape →
        AllByRecursion IsFrame (frames_after to shape id given batches) }
{}

/// If a scan finds a shape and no fault in the records, a gateway can convert a stream of this shape.
pub fn scanned_shapes_can_be_turned()
    ensures { (to : ToValue) (stream : ℕ) (records : List Record) → first_fault to stream records ≡ None → IfSome (shape_in stream records) IsShape }
{}
