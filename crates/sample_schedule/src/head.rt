//! The samples of a packet are counted from a stamped sample; `head_of` finds this sample.

ghost use Rattle.std.specs.Prelude.{◌≡◌};
ghost use Rattle.time_unfold.specs.Limits.{IsBehind, IsRule};
ghost use Rattle.sample_schedule.specs.Heads.{head_back as head_back_of, head_of as head_of_packet, usable_stamp as usable_stamp_of};
ghost use Rattle.sample_schedule.specs.Limits.{IsItem};
ghost use Rattle.sample_schedule.specs.state.Heads.{CanHaveHead, HasSamples, IsHead, IsStampOf, IsWantOf};

use crate::item::{Item, Packet};
use crate::noted::Noted;
use crate::plan::SchedulePlan;
use time_unfold::{Distance, Head, Stamp, Want, unfold};

fn usable_stamp(packet: &Packet) -> Option<u32>
    requires { IsRule packet.now.rule }
    ensures { result ≡ usable_stamp_of packet.now }
{
    if packet.tu || packet.rate == 0 || packet.count <= packet.rule.stamped_index() {
        return None;
    }
    packet.stamp
}

/// The usable stamp of an item, if it has one. The samples of other packets can be counted from this stamp.
pub fn stamp_of(item: &Item) -> Option<Stamp>
    requires { IsItem item.now }
    ensures { IsStampOf item.now result }
{
    match item {
        Item::Packet(packet) => match usable_stamp(packet) {
            Some(timestamp) => Some(Stamp {
                seq: packet.seq,
                mr: packet.mr,
                block: packet.rule.stamped_block(),
                rate: packet.rate,
                instant: unfold(timestamp, packet.arrival),
            }),
            None => None,
        },
        _ => None,
    }
}

fn want_of(plan: &SchedulePlan, packet: &Packet, far: &Distance) -> Want
    requires samples { HasSamples packet.now }
    requires behind { IsBehind packet.now.count far.now }
    ensures { IsWantOf plan.now packet.now far.now result }
{
    Want {
        seq: packet.seq.wrapping_sub(far.packets as u8),
        mr: packet.mr,
        block: packet.rule.counted_block(),
        rate: packet.rate,
        arrival: packet.arrival,
        lead: plan.lead,
        back: far.samples,
        count: packet.count,
    }
}

fn head_back(plan: &SchedulePlan, noted: &Noted, packet: &Packet) -> Option<Head>
    requires { CanHaveHead plan.now packet.now }
    ensures { IsHead plan.now noted.now (λ prefix. head_back_of plan.now prefix packet.now) result }
{
    let far = packet.rule.distance(packet.seq, packet.count)?;
    let want = want_of(plan, packet, &far);
    let stamp = noted.find(&want)?;
    Some(Head {
        instant: stamp.instant,
        first: i64::from(far.samples),
    })
}

/// The head of a packet that has samples and a rate. If the packet's own timestamp is usable, it gives the head. If the
/// packet's own timestamp is not usable, the latest fitting stamp among the noted stamps gives the head; if no stamp
/// fits, there is no head.
pub fn head_of(plan: &SchedulePlan, noted: &Noted, packet: &Packet) -> Option<Head>
    requires { CanHaveHead plan.now packet.now }
    ensures { IsHead plan.now noted.now (λ prefix. head_of_packet plan.now prefix packet.now) result }
{
    match usable_stamp(packet) {
        Some(timestamp) => Some(Head {
            instant: unfold(timestamp, packet.arrival),
            first: -i64::from(packet.rule.stamped_index()),
        }),
        None => head_back(plan, noted, packet),
    }
}
