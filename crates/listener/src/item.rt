//! The items that are made of deliveries, and the samples of AAF.

ghost use Rattle.std.specs.Prelude.{◌≡◌, IfOk};
ghost use Rattle.aaf_format.specs.Aaf.{aaf_shape};
ghost use Rattle.listener.specs.state.Views.{delivery_shape};
ghost use Rattle.listener.specs.Items.{aaf_item as aaf_item_of, iec_item as iec_item_of, item_of as item_of_delivery, malformed as malformed_of, samples_of as samples_of_packet};

use crate::blocks::blocks_of;
use crate::buffer_pool::BufferPool;
use crate::delivery_view::DeliveryView;
use aaf_format::{AafView, rate_of, read_aaf};
use avtp_base::{NoMemory, Refusal};
use avtp_header::subtype;
use iec61883_format::read_iec;
use sample_schedule::{Bad, HeadRule, Item, Packet, Reason};
use std::alloc::Global;

pub(crate) fn malformed(delivery: &DeliveryView<'_>, refusal: Refusal) -> Item
    ensures { result ≡ malformed_of (delivery_shape delivery.now) refusal }
{
    Item::Bad(Bad {
        frame: delivery.frame,
        arrival: delivery.arrival,
        seq: delivery.seq,
        reason: Reason::Malformed(refusal.field),
    })
}

/// Copies the samples of a packet into an item.
fn samples_of(
    alloc: Global,
    pool: &mut BufferPool,
    delivery: &DeliveryView<'_>,
    view: &AafView<'_>,
) -> Result<Item, NoMemory>
    ensures { IfOk result (λ item. item ≡ samples_of_packet (delivery_shape delivery.now) (aaf_shape view.now)) }
{
    let bytes = pool.copy(alloc, view.payload)?;
    Ok(Item::Packet(Packet {
        frame: delivery.frame,
        arrival: delivery.arrival,
        seq: delivery.seq,
        mr: view.header.mr,
        tu: view.header.tu,
        stamp: view.header.tv.then_some(view.header.timestamp),
        rule: if view.sparse {
            HeadRule::Eight
        } else {
            HeadRule::Own
        },
        rate: rate_of(view.nsr).unwrap_or(0),
        count: view.count,
        bytes,
    }))
}

fn aaf_item(
    alloc: Global,
    pool: &mut BufferPool,
    delivery: &DeliveryView<'_>,
) -> Result<Item, NoMemory>
    ensures { IfOk result (λ item. item ≡ aaf_item_of (delivery_shape delivery.now)) }
{
    match read_aaf(delivery.packet) {
        Ok(view) => samples_of(alloc, pool, delivery, &view),
        Err(refusal) => Ok(malformed(delivery, refusal)),
    }
}

fn iec_item(
    alloc: Global,
    pool: &mut BufferPool,
    delivery: &DeliveryView<'_>,
) -> Result<Item, NoMemory>
    ensures { IfOk result (λ item. item ≡ iec_item_of (delivery_shape delivery.now)) }
{
    match read_iec(delivery.packet) {
        Ok(view) => blocks_of(alloc, pool, delivery, &view),
        Err(refusal) => Ok(malformed(delivery, refusal)),
    }
}

/// The item of a delivery of audio. If the delivery's packet is refused, the item names the refused field; otherwise
/// the item holds the samples.
pub fn item_of(
    alloc: Global,
    pool: &mut BufferPool,
    delivery: &DeliveryView<'_>,
) -> Result<Item, NoMemory>
    ensures { IfOk result (λ item. item ≡ item_of_delivery (delivery_shape delivery.now)) }
{
    if delivery.subtype == subtype::AAF {
        aaf_item(alloc, pool, delivery)
    } else {
        iec_item(alloc, pool, delivery)
    }
}
