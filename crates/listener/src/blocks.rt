//! The samples of IEC 61883-6.

ghost use Rattle.std.specs.Prelude.{◌≡◌, IfOk};
ghost use Rattle.iec61883_format.specs.Iec.{iec_shape, syt_interval as syt_interval_of};
ghost use Rattle.listener.specs.state.Views.{delivery_shape};
ghost use Rattle.listener.specs.Items.{block_rule as block_rule_of, blocks_of as blocks_of_packet};

use crate::buffer_pool::BufferPool;
use crate::delivery_view::DeliveryView;
use avtp_base::NoMemory;
use iec61883_format::{Cip, IecView, rate_of_fdf, syt_interval};
use sample_schedule::{Item, Packet};
use std::alloc::Global;
use time_unfold::HeadRule;

/// Which data block a packet's timestamp belongs to. A no-data packet has no data blocks.
fn block_rule(cip: Cip) -> HeadRule
    ensures { result ≡ block_rule_of cip.dbc (syt_interval_of cip.fdf) }
{
    match syt_interval(cip.fdf) {
        Some(interval) => HeadRule::Blocks {
            dbc: cip.dbc,
            interval,
        },
        None => HeadRule::Own,
    }
}

/// Copies the data blocks of a packet into an item.
pub fn blocks_of(
    alloc: Global,
    pool: &mut BufferPool,
    delivery: &DeliveryView<'_>,
    view: &IecView<'_>,
) -> Result<Item, NoMemory>
    ensures { IfOk result (λ item. item ≡ blocks_of_packet (delivery_shape delivery.now) (iec_shape view.now)) }
{
    let bytes = pool.copy(alloc, view.payload)?;
    Ok(Item::Packet(Packet {
        frame: delivery.frame,
        arrival: delivery.arrival,
        seq: delivery.seq,
        mr: view.header.mr,
        tu: view.header.tu,
        stamp: view.header.tv.then_some(view.header.timestamp),
        rule: block_rule(view.cip),
        rate: rate_of_fdf(view.cip.fdf).unwrap_or(0),
        count: view.count,
        bytes,
    }))
}
