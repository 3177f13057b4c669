//! A block of sorted keys.

ghost use Rattle.std.specs.Prelude.{◌≡◌, ◌+◌, ◌<◌, ◌≤◌, ◌++◌, [], ℕ, false, true, insert, length, nat_le, slice_get, IfNone, IfOk};
ghost use Rattle.std.specs.List.{list_any};
ghost use Rattle.std.specs.Option.{option_to_list};
ghost use Rattle.std.specs.VecDeque.{deque_capacity};
ghost use Rattle.sorted_keys.specs.Keys.{is_key, put_key};
ghost use Rattle.sorted_keys.specs.state.Keys.{IsPlace, KeysAreInOrder, Moves, MovesBehind, starts_before as starts_before_of, starts_by as starts_by_of};

use crate::key::Key;
use avtp_base::NoMemory;
use std::alloc::Global;
use std::collections::VecDeque;
use std::marker::Model;

/// If a block has this many keys, it is split into two halves. Hence each block except the first is at least half full,
/// and `with_room` can reserve memory for all blocks.
pub const FULL: usize = 512;

pub const HALF: usize = FULL / 2;

/// How many of the sorted keys are at or before the instant. Usually all keys are at or before the instant.
#[inline(always)]
fn place_behind(keys: &VecDeque<Key>, instant: i64) -> usize
    requires { KeysAreInOrder keys.now.items }
    ensures { IsPlace instant keys.now.items result }
{
    let Some(last) = keys.back() else {
        return 0;
    };
    if instant < last.instant {
        find_place(keys, instant)
    } else {
        keys.len()
    }
}

fn find_place(keys: &VecDeque<Key>, instant: i64) -> usize
    requires { KeysAreInOrder keys.now.items }
    ensures { IsPlace instant keys.now.items result }
{
    keys.partition_point(|key| key.instant <= instant)
}

/// Inserts an item, for which there must be room.
pub fn insert_at<T: Drop>(queue: &mut VecDeque<T>, place: usize, item: T)
    requires place { place ≤ length queue.old.items }
    requires room { length queue.old.items < deque_capacity queue.old }
    ensures items { queue.new.items ≡ insert queue.old.items place item }
    ensures capacity { deque_capacity queue.old ≤ deque_capacity queue.new }
{
    // Usually a key is the last one, because most packets arrive in the order of their instants.
    if place == queue.len() {
        queue.push_back_reserved(item);
        return;
    }
    let Ok(()) = queue.insert(place, item) else {
        unreachable!()
    };
}

/// Moves all keys except the first `count` to the beginning of `others`, which must have room for them.
fn move_behind(keys: &mut VecDeque<Key>, count: usize, others: &mut VecDeque<Key>)
    requires count { count ≤ length keys.old.items }
    requires room { length keys.old.items + length others.old.items ≤ count + deque_capacity others.old }
    ensures { MovesBehind count keys.old others.old keys.new others.new }
{
    while keys.len() > count {
        match keys.pop_back() {
            Some(last) => {
                let Ok(()) = others.push_front(last) else {
                    unreachable!()
                };
            }
            None => unreachable!(),
        }
    }
}

/// A block of sorted keys, with memory for 512 keys.
#[derive(Drop)]
pub struct Block {
    keys: VecDeque<Key>,
}

impl Model for Block {
    ghost use Rattle.std.specs.Prelude.{List, ◌≤◌};
    ghost use Rattle.std.specs.VecDeque.{deque_capacity};
    ghost use Rattle.sorted_keys.specs.declared.key.Key.{Key as KeyValue};
    ghost use Rattle.sorted_keys.specs.state.Keys.{KeysAreInOrder};

    ghost Value = { List KeyValue };

    ghost view = { λ block. block.keys.items };

    ghost invariant = { λ block. (512 ≤ deque_capacity block.keys) × KeysAreInOrder block.keys.items };
}

impl Block {
    pub fn new(alloc: Global) -> Result<Self, NoMemory>
        ensures { IfOk result (λ block. block ≡ []) }
    {
        let keys = VecDeque::with_capacity(alloc, FULL)?;
        Ok(Block { keys })
    }

    pub fn is_full(&self) -> bool
        ensures { result ≡ nat_le 512 (length self.now) }
    {
        self.keys.len() >= FULL
    }

    pub fn is_empty(&self) -> bool
        ensures { result ≡ nat_le (length self.now) 0 }
    {
        self.keys.is_empty()
    }

    pub fn first(&self) -> Option<Key>
        ensures { result ≡ slice_get self.now 0 }
    {
        self.keys.front().copied()
    }

    /// Whether the first key is at or before the instant, or there is no key.
    pub fn starts_by(&self, instant: i64) -> bool
        ensures { result ≡ starts_by_of instant self.now }
    {
        match self.keys.front() {
            Some(first) => first.instant <= instant,
            None => true,
        }
    }

    /// Whether the first key is earlier than the instant.
    pub fn starts_before(&self, instant: i64) -> bool
        ensures { result ≡ starts_before_of instant self.now }
    {
        match self.keys.front() {
            Some(first) => first.instant < instant,
            None => false,
        }
    }

    /// Whether the last key is earlier than the instant.
    #[inline(always)]
    fn ends_before(&self, instant: i64) -> bool
        ensures { result ≡ true → (seq : ℕ) → list_any (is_key instant seq) self.now ≡ false }
    {
        match self.keys.back() {
            Some(last) => last.instant < instant,
            None => false,
        }
    }

    /// Puts a key into the block, after all keys with earlier or equal instants.
    pub fn put(&mut self, key: Key)
        requires { length self.old < 512 }
        ensures { self.new ≡ put_key self.old key }
    {
        let place = place_behind(&self.keys, key.instant);
        insert_at(&mut self.keys, place, key);
    }

    /// Whether one of the keys has this instant and this sequence number.
    pub fn has(&self, instant: i64, seq: u8) -> bool
        ensures { result ≡ list_any (is_key instant seq) self.now }
    {
        if self.ends_before(instant) {
            return false;
        }
        let mut end = place_behind(&self.keys, instant);
        while end > 0 {
            let key = self.keys[end - 1];
            if key.instant != instant {
                return false;
            }
            if key.seq == seq {
                return true;
            }
            end -= 1;
        }
        false
    }

    pub fn take_first(&mut self) -> Option<Key>
        ensures taken { self.old ≡ option_to_list result ++ self.new }
        ensures none { IfNone result (self.old ≡ []) }
    {
        self.keys.pop_front()
    }

    /// Moves the upper half of the keys into `upper`, which must be empty.
    pub fn split(&mut self, upper: &mut Block)
        requires full { length self.old ≡ 512 }
        requires empty { upper.old ≡ [] }
        ensures { Moves 256 self.old upper.old self.new upper.new }
    {
        move_behind(&mut self.keys, HALF, &mut upper.keys);
    }
}
