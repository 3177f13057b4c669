//! What a listener shows of a capture.

ghost use Rattle.sample_schedule.specs.Limits.{IsPlan};
ghost use Rattle.listener.specs.Heard.{schedule_plan};

use crate::captures::{after, capture};
use avtp_base::NoMemory;
use listener::{Heard, ListenPlan, whole};
use sample_schedule::Shown;
use std::alloc::Global;
use std::test::Fail;
use vectors_avtp::check_rows;

/// A plan within its limits.
pub fn plan_of(buffer: u32, room: u32, look: Option<u32>) -> ListenPlan
    ensures { IsPlan (schedule_plan result) }
{
    ListenPlan {
        stream: 0x0200_0000_0001_0001,
        clock: if look.is_some() {
            Some(0x0200_0000_0001_0002)
        } else {
            None
        },
        buffer: buffer.max(1).min(65_536),
        room: room.max(1).min(1_073_741_824),
        look: look.unwrap_or(0).min(64),
        lead: 2_000_000,
        shift: 0,
    }
}

/// What a listener hears of a capture. The listener's plan has the words `buffer:2`, `room:30` and `look:1`. Without
/// `look:`, the listener has no clock. If the other words are left out, the listener has room for everything.
pub fn heard(alloc: Global, plan: &str, bytes: &[u8]) -> Result<Heard, Fail> {
    let buffer = after(plan, "buffer:").unwrap_or("4096").parse()?;
    let room = after(plan, "room:").unwrap_or("67108864").parse()?;
    let look = match after(plan, "look:") {
        Some(look) => Some(look.parse()?),
        None => None,
    };
    if bytes.len() > 100_000_000 {
        return Err(Fail::new("a long capture"));
    }
    Ok(whole(alloc, &plan_of(buffer, room, look), bytes)?)
}

/// What a listener hears of the packets in a row. The row can begin with the words of the listener's plan and ` | `.
pub fn heard_of(alloc: Global, row: &str) -> Result<Heard, Fail> {
    let (plan, packets) = row.split_once(" | ").unwrap_or(("", row));
    heard(alloc, plan, &capture(alloc, packets)?)
}

/// An item as text: its frame number and its sequence number. If the item is presented, its first instant follows;
/// otherwise the reason follows.
pub fn line_of(alloc: Global, shown: &Shown) -> Result<String, NoMemory> {
    match shown {
        Shown::Present(batch) => {
            let (frame, seq, instant) = (batch.frame, batch.seq, batch.instant(0));
            Ok(format!(in alloc; "{frame}/{seq} at {instant}")?)
        }
        Shown::Flag { frame, seq, reason } => Ok(format!(in alloc; "{frame}/{seq} {reason:?}")?),
    }
}

/// All items that are shown of the packets in a row, as text.
fn seen_of(alloc: Global, row: &str) -> Result<String, Fail> {
    let heard = heard_of(alloc, row)?;
    let mut text = String::new(alloc);
    for shown in heard.shown.as_slice() {
        text.push_str(if text.is_empty() { "" } else { ", " })?;
        text.push_str(&line_of(alloc, shown)?)?;
    }
    Ok(text)
}

/// Checks that each row's packets are shown as the row says.
pub fn check_shown(alloc: Global, rows: &str) -> Result<(), Fail> {
    check_rows(rows, |row| seen_of(alloc, row))
}
