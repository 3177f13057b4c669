//! The newest stamps of a running stream. Packets without a timestamp are counted from these stamps.

ghost use Rattle.std.specs.Prelude.{◌≡◌, ◌++◌, ◌∷◌, [], IfOk, IfSome, List};
ghost use Rattle.time_unfold.specs.declared.stamp.Stamp.{Stamp as StampValue};
ghost use Rattle.time_unfold.specs.Anchors.{IsRoom, KeepsLast};
ghost use Rattle.time_unfold.specs.Limits.{IsStamp, IsWant};
ghost use Rattle.time_unfold.specs.Stamps.{found};

use crate::head::last_fit;
use crate::stamp::{Stamp, Want};
use avtp_base::NoMemory;
use circular_buffer::HeapCircularBuffer;
use std::alloc::Global;
use std::marker::Model;

/// The newest stamps of a stream.
#[derive(Drop)]
pub struct Anchors {
    stamps: HeapCircularBuffer<Stamp>,
}

impl Model for Anchors {
    ghost use Rattle.std.specs.Prelude.{All};
    ghost use Rattle.time_unfold.specs.Anchors.{IsRoom, LastStamps};
    ghost use Rattle.time_unfold.specs.Limits.{IsStamp};

    ghost Value = { LastStamps };

    ghost view = { λ anchors. record { room = anchors.stamps.capacity; stamps = anchors.stamps.items } };

    ghost invariant = { λ anchors. IsRoom anchors.stamps.capacity × All IsStamp anchors.stamps.items };
}

impl Anchors {
    /// An empty window with room for `room` stamps, 1 to 80. Reserves the memory for all stamps.
    pub fn new(alloc: Global, room: u32) -> Result<Self, NoMemory>
        requires { IsRoom room }
        ensures empty { IfOk result (λ anchors. KeepsLast anchors []) }
        ensures room { IfOk result (λ anchors. anchors.room ≡ room) }
    {
        let stamps = HeapCircularBuffer::with_capacity(alloc, room as usize)?;
        Ok(Anchors { stamps })
    }

    /// Notes a stamp. If there is no room for one more, the oldest stamp is dropped. The stamp's instant must be from
    /// -2^62 to below 2^62 + 2^31 ns. Allocates nothing.
    pub fn note(&mut self, stamp: Stamp)
        requires { IsStamp stamp }
        ensures noted { (stamps : List StampValue) → KeepsLast self.old stamps → KeepsLast self.new (stamps ++ stamp ∷ []) }
        ensures room { self.new.room ≡ self.old.room }
    {
        self.stamps.push_back(stamp);
    }

    /// A packet without a timestamp is counted from this stamp: the stamp that `head_among` returns for all stamps that
    /// were noted. `None` if and only if no kept stamp fits. Allocates nothing.
    pub fn find(&self, want: &Want) -> Option<Stamp>
        requires { IsWant want.now }
        ensures value { (stamps : List StampValue) → KeepsLast self.now stamps → result ≡ found self.now.room want.now stamps }
        ensures stamp { IfSome result IsStamp }
    {
        let (older, newer) = self.stamps.as_slices();
        match last_fit(newer, want) {
            Some(stamp) => Some(stamp),
            None => last_fit(older, want),
        }
    }
}
