//! Laws of a listener that is given a capture piece by piece. Each call only states its contract, and does nothing.

ghost use Rattle.std.specs.Prelude.{Any, List, None, ℕ, ℤ, false, true, [], ◌∷◌, ◌++◌, ◌≡◌, ◌<◌};
ghost use Rattle.cvf_format.specs.Cvf.{cvf_subtype};
ghost use Rattle.cvf_format.specs.declared.piece.Piece.TheVariants.{Whole};
ghost use Rattle.cvf_format.specs.WholeOrBroken.{piece};
ghost use Rattle.sample_schedule.specs.declared.shown.Reason.TheVariants.{Repeat};
ghost use Rattle.sample_schedule.specs.declared.shown.Shown.{Shown};
ghost use Rattle.sample_schedule.specs.declared.shown.Shown.TheVariants.{Flag};
ghost use Rattle.pcap_frames.specs.Capture.{Record, whole_records};
ghost use Rattle.stream_journal.specs.Delivered.{IsAudioKind};
ghost use Rattle.stream_journal.specs.Journal.{H264, Part};
ghost use Rattle.packet_journal.specs.Deliveries.{Delivery};
ghost use Rattle.packet_journal.specs.Packets.{PacketJournal};
ghost use Rattle.listener.specs.declared.plan.ListenPlan.{ListenPlan};
ghost use Rattle.listener.specs.Feeding.{Feeding, is_ended, out as out_of};
ghost use Rattle.listener.specs.Heard.{deliveries_of, due_of};
ghost use Rattle.listener.specs.Headline.{KeepsHeadline};
ghost use Rattle.listener.specs.Items.{MadeItem, events_to, made_of_one, unit_by};
ghost use Rattle.listener.specs.Units.{flaw_of};
ghost use Rattle.listener.specs.Laws.{HearsTalker, IsFurther, IsPresentedOf, IsUnitFrom, IsWelcome, by_clock, presented_of, shown_of_frame};
ghost use Rattle.listener.specs.Listening.{ListenState, is_closed, out};
ghost use Rattle.listener_laws.specs.Anywhere.{ComesInTime, MustBePresented, UnitComesInTime, UnitMustBePresented, unit_place};
ghost use Rattle.listener_laws.specs.Completed.{completed};
ghost use Rattle.listener_laws.specs.Fronts.{IsTrueFront};

use listener::laws::{headline_holds, units_are_true};

/// If the first records of a capture are a talker's, the due items of these records are as the headline says, whatever
/// records follow. What is shown of the whole capture begins with these due items. The law holds even if the capture is
/// cut short or records of other talkers follow.
pub fn fronts_are_true()
    ensures { (shift : ℤ) (p : PacketJournal) (plan : ListenPlan) (records others : List Record) → HearsTalker shift p plan records → IsTrueFront p plan records others }
{}

/// If a listener hears a talker in a whole capture, the listener also hears the talker in the first records of the
/// capture. Hence, if reading stops at a fault or a limit, `fronts_are_true` applies to the records before that stop.
pub fn shorter_captures_are_heard()
    ensures { (shift : ℤ) (p : PacketJournal) (plan : ListenPlan) (records others : List Record) → HearsTalker shift p plan (records ++ others) → HearsTalker shift p plan records }
{}

/// What a listener returns from a talker's records is as the headline says. Before the records have ended, the listener
/// returns what is due, as `fronts_are_true` says. Once the records have ended, the listener returns everything that is
/// shown of these records. `RecordListener::next_out` returns exactly the items described here, one by one.
pub fn records_are_given_truly()
    ensures ended { (shift : ℤ) (p : PacketJournal) (listener : ListenState) (records : List Record) → is_closed listener ≡ true → HearsTalker shift p listener.plan records → KeepsHeadline shift p listener.plan records (out listener records) }
    ensures due { (shift : ℤ) (p : PacketJournal) (listener : ListenState) (records others : List Record) → is_closed listener ≡ false → HearsTalker shift p listener.plan records → (out listener records ≡ due_of listener.plan records) × IsTrueFront p listener.plan records others }
{
    headline_holds();
    fronts_are_true();
}

/// Suppose that a listener is fed the bytes of a talker's capture in pieces of any length. Then what the listener
/// returns is as the headline says. Before the capture has ended, the listener returns what is due, as
/// `fronts_are_true` says. Once the capture has ended, the listener returns everything that is shown of the capture.
/// `Listener::next_out` returns exactly the items that are due, one by one.
pub fn bytes_are_given_truly()
    ensures ended { (shift : ℤ) (p : PacketJournal) (fed : Feeding) (bytes : List ℕ) → is_ended fed ≡ true → HearsTalker shift p fed.listener.plan (whole_records bytes) → KeepsHeadline shift p fed.listener.plan (whole_records bytes) (out_of fed bytes) }
    ensures due { (shift : ℤ) (p : PacketJournal) (fed : Feeding) (bytes : List ℕ) (others : List Record) → is_ended fed ≡ false → HearsTalker shift p fed.listener.plan (whole_records bytes) → (out_of fed bytes ≡ due_of fed.listener.plan (whole_records bytes)) × IsTrueFront p fed.listener.plan (whole_records bytes) others }
{
    records_are_given_truly();
}

/// A copy of an audio packet must be presented if four conditions hold. The copy can be timed from the packets that
/// came. No copy of the packet came before. The buffer has room for the copy. All deliveries up to and including the
/// copy were captured no later than the packet's first instant. The law holds anywhere in a capture, whatever the
/// capture loses, repeats or reorders. The law holds for listeners with the talker's clock and for listeners without
/// it.
pub fn copies_anywhere_are_welcome()
    ensures { (shift : ℤ) (p : PacketJournal) (plan : ListenPlan) (records : List Record) (place n : ℕ) (d : Delivery) → HearsTalker shift p plan records → IsAudioKind p.times.kind → MustBePresented p plan records place n d → IsWelcome p plan records place n (made_of_one d) }
{}

/// Assume that one copy of an audio packet must be presented. A later copy must then be flagged as a repeat if two
/// conditions hold. The later copy can be timed from the packets that came. All deliveries up to and including the
/// later copy were captured no later than the packet's first instant.
pub fn copies_anywhere_are_further()
    ensures { (shift : ℤ) (p : PacketJournal) (plan : ListenPlan) (records : List Record) (earlier place n : ℕ) (made : MadeItem) (d : Delivery) → HearsTalker shift p plan records → IsAudioKind p.times.kind → IsWelcome p plan records earlier n made → earlier < place
        → ComesInTime p plan records place n d → IsFurther p plan records place n (made_of_one d) }
{}

/// A unit of H.264 must be presented if four conditions hold. One copy of each of the unit's packets came, in order,
/// with no other packet of the stream between them. All deliveries up to and including the copy of the unit's last
/// packet were captured no later than the instant at which the unit is due. No other copy of the unit's last packet
/// came earlier. The buffer has room for the unit. If the conditions hold, the unit is made of exactly these copies.
/// The law holds anywhere in a capture, whatever the capture loses, repeats or reorders.
pub fn units_anywhere_are_welcome()
    ensures { (shift : ℤ) (p : PacketJournal) (plan : ListenPlan) (records : List Record) (part : ℕ → Part) (from n : ℕ) (before : List Delivery) (last : Delivery) → HearsTalker shift p plan records → p.times.kind ≡ H264 part
        → UnitMustBePresented p plan records part from n before last → IsWelcome p plan records (unit_place before last) n (unit_by before last) }
{}

/// Suppose that a unit must be presented, and that the whole unit arrives again later. If the later copy of the unit is
/// in time, the copy must be flagged as a repeat. The later copy is in time if all deliveries up to and including its
/// last packet were captured no later than the unit's due instant.
pub fn units_anywhere_are_further()
    ensures { (shift : ℤ) (p : PacketJournal) (plan : ListenPlan) (records : List Record) (part : ℕ → Part) (earlier from n : ℕ) (made : MadeItem) (before : List Delivery) (last : Delivery) → HearsTalker shift p plan records → p.times.kind ≡ H264 part → IsWelcome p plan records earlier n made
        → earlier < unit_place before last → UnitComesInTime p plan records part from n before last → IsFurther p plan records (unit_place before last) n (unit_by before last) }
{}

/// The headline by itself implies two things, anywhere in a capture, with a clock or without. A copy or a unit that
/// must be presented is presented. A further copy that comes in time is flagged as a repeat.
pub fn headline_demands()
    ensures presented { (shift : ℤ) (p : PacketJournal) (plan : ListenPlan) (records : List Record) (shown : List Shown) (place n : ℕ) (d : Delivery) → KeepsHeadline shift p plan records shown → HearsTalker shift p plan records → IsAudioKind p.times.kind → MustBePresented p plan records place n d
        → Any (IsPresentedOf (by_clock plan) p n (made_of_one d)) (presented_of shown) }
    ensures repeated { (shift : ℤ) (p : PacketJournal) (plan : ListenPlan) (records : List Record) (shown : List Shown) (earlier place n : ℕ) (made : MadeItem) (d : Delivery) → KeepsHeadline shift p plan records shown → HearsTalker shift p plan records → IsAudioKind p.times.kind
        → IsWelcome p plan records earlier n made → earlier < place → ComesInTime p plan records place n d → shown_of_frame d.frame shown ≡ Flag d.frame d.seq Repeat ∷ [] }
    ensures unit_presented { (shift : ℤ) (p : PacketJournal) (plan : ListenPlan) (records : List Record) (shown : List Shown) (part : ℕ → Part) (from n : ℕ) (before : List Delivery) (last : Delivery) → KeepsHeadline shift p plan records shown → HearsTalker shift p plan records → p.times.kind ≡ H264 part
        → UnitMustBePresented p plan records part from n before last → Any (IsPresentedOf (by_clock plan) p n (unit_by before last)) (presented_of shown) }
    ensures unit_repeated { (shift : ℤ) (p : PacketJournal) (plan : ListenPlan) (records : List Record) (shown : List Shown) (part : ℕ → Part) (earlier from n : ℕ) (made : MadeItem) (before : List Delivery) (last : Delivery) → KeepsHeadline shift p plan records shown → HearsTalker shift p plan records
        → p.times.kind ≡ H264 part → IsWelcome p plan records earlier n made → earlier < unit_place before last → UnitComesInTime p plan records part from n before last → shown_of_frame last.frame shown ≡ Flag last.frame last.seq Repeat ∷ [] }
{
    copies_anywhere_are_welcome();
    copies_anywhere_are_further();
    units_anywhere_are_welcome();
    units_anywhere_are_further();
}

/// If a packet of H.264 completes a unit (`Assembler::push` returns `Whole`), the unit is one of the talker's units.
/// The completed unit was made of one copy of each packet of the talker's unit, in order, and has that unit's bytes and
/// instant.
pub fn assembled_units_are_true()
    ensures { (shift : ℤ) (p : PacketJournal) (plan : ListenPlan) (records : List Record) (part : ℕ → Part) (before : List Delivery) (d : Delivery) (rest : List Delivery) → HearsTalker shift p plan records → p.times.kind ≡ H264 part → deliveries_of plan records ≡ before ++ d ∷ rest
        → d.subtype ≡ cvf_subtype → flaw_of d ≡ None → piece (events_to before d) ≡ Whole → (n : ℕ) × IsUnitFrom p part plan.lead n (unit_by before d) (completed before d) }
{
    units_are_true();
}
