//! The sorted keys of waiting batches.

ghost use Rattle.std.specs.Prelude.{◌≡◌, ◌<◌, length, slice_get, IfOk};
ghost use Rattle.std.specs.List.{list_any};
ghost use Rattle.sorted_keys.specs.Keys.{IsNew, TakesFirst, is_key, put_key};

use crate::block::{Block, HALF, insert_at};
use crate::blocks::{block_for, put_into, spare_blocks, split, take_empty};
use crate::key::Key;
use avtp_base::NoMemory;
use std::alloc::Global;
use std::collections::VecDeque;
use std::marker::Model;

/// Keys sorted by instant. Keys with equal instants are in the order in which they were put into the list. All keys are
/// kept in blocks of fewer than 512 keys, so that few keys are moved if a key is put into the list out of order.
#[derive(Drop)]
pub struct SortedKeys {
    blocks: VecDeque<Block>,
    /// Spare blocks without keys.
    spare: Vec<Block>,
}

impl Model for SortedKeys {
    ghost use Rattle.std.specs.Prelude.{◌+◌, length, min, vec_capacity};
    ghost use Rattle.std.specs.VecDeque.{deque_capacity};
    ghost use Rattle.sorted_keys.specs.Keys.{KeyList};
    ghost use Rattle.sorted_keys.specs.state.Keys.{HaveRoom, all_keys, room_of};

    ghost Value = { KeyList };

    ghost view = { λ keys. record { list = all_keys keys.blocks.items; room = room_of (length keys.blocks.items + length keys.spare.items) } };

    ghost invariant = { λ keys. HaveRoom keys.blocks.items keys.spare.items (min (deque_capacity keys.blocks) (vec_capacity keys.spare)) };
}

impl SortedKeys {
    /// An empty list, with memory for `keys` keys.
    pub fn with_room(alloc: Global, keys: u32) -> Result<Self, NoMemory>
        ensures { IfOk result (IsNew keys) }
    {
        let count = (keys as usize).div_ceil(HALF);
        let mut blocks = VecDeque::with_capacity(alloc, count + 1)?;
        let spare = spare_blocks(alloc, count)?;
        insert_at(&mut blocks, 0, Block::new(alloc)?);
        Ok(SortedKeys { blocks, spare })
    }

    /// Whether one of the keys has this instant and this sequence number.
    pub fn has(&self, instant: i64, seq: u8) -> bool
        ensures { result ≡ list_any (is_key instant seq) self.now.list }
    {
        let mut end = block_for(&self.blocks, instant) + 1;
        while end > 0 {
            let block = &self.blocks[end - 1];
            if block.has(instant, seq) {
                return true;
            }
            if block.starts_before(instant) {
                return false;
            }
            end -= 1;
        }
        false
    }

    /// Puts a key into the list, after all keys with earlier or equal instants. Allocates nothing.
    pub fn put(&mut self, key: Key)
        requires { length self.old.list < self.old.room }
        ensures list { self.new.list ≡ put_key self.old.list key }
        ensures room { self.new.room ≡ self.old.room }
    {
        let place = put_into(&mut self.blocks, key);
        if self.blocks[place].is_full() {
            let Some(upper) = self.spare.pop() else {
                unreachable!()
            };
            split(&mut self.blocks, place, upper);
        }
    }

    pub fn first(&self) -> Option<Key>
        ensures { result ≡ slice_get self.now.list 0 }
    {
        self.blocks[0].first()
    }

    /// Removes and returns the first key.
    pub fn take_first(&mut self) -> Option<Key>
        ensures { TakesFirst self.old result self.new }
    {
        let first = self.blocks[0].take_first();
        if let Some(empty) = take_empty(&mut self.blocks) {
            self.spare.push_reserved(empty);
        }
        first
    }
}
