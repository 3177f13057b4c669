//! Blocks of sorted keys.

ghost use Rattle.std.specs.Prelude.{◌≡◌, ◌^◌, ◌<◌, [], length, IfOk};
ghost use Rattle.std.specs.VecDeque.{deque_capacity};
ghost use Rattle.sorted_keys.specs.state.Keys.{AreBlocks, AreSpare, AreTaken, IsBlockFor, IsFullAt, PutsInto, Splits, TakesEmpty};

use crate::block::{Block, insert_at};
use crate::key::Key;
use avtp_base::NoMemory;
use std::alloc::Global;
use std::collections::VecDeque;

/// The index of the block into which a key with this instant goes. Usually there is only one block.
#[inline(always)]
pub fn block_for(blocks: &VecDeque<Block>, instant: i64) -> usize
    requires { AreBlocks blocks.now.items }
    ensures { IsBlockFor instant blocks.now.items result }
{
    if blocks.len() == 1 {
        0
    } else {
        find_block(blocks, instant)
    }
}

fn find_block(blocks: &VecDeque<Block>, instant: i64) -> usize
    requires { AreBlocks blocks.now.items }
    ensures { IsBlockFor instant blocks.now.items result }
{
    blocks
        .partition_point(|block| block.starts_by(instant))
        .saturating_sub(1)
}

/// Puts a key into its block. Returns the index of the block that the key was put into. The block can be full
/// afterwards.
pub fn put_into(blocks: &mut VecDeque<Block>, key: Key) -> usize
    requires { AreBlocks blocks.old.items }
    ensures { PutsInto key result blocks.old blocks.new }
{
    let place = block_for(blocks, key.instant);
    blocks[place].put(key);
    place
}

/// Splits a full block. The upper half of the block goes into `upper`, which must be empty before the call. `upper` is
/// inserted after the block.
pub fn split(blocks: &mut VecDeque<Block>, place: usize, mut upper: Block)
    requires full { IsFullAt place blocks.old.items }
    requires empty { upper ≡ [] }
    requires room { length blocks.old.items < deque_capacity blocks.old }
    ensures { Splits blocks.old blocks.new }
{
    blocks[place].split(&mut upper);
    insert_at(blocks, place + 1, upper);
}

/// If the first block has no keys and other blocks follow it, removes and returns the first block.
pub fn take_empty(blocks: &mut VecDeque<Block>) -> Option<Block>
    requires { AreTaken blocks.old.items }
    ensures { TakesEmpty blocks.old result blocks.new }
{
    if blocks.len() > 1 && blocks[0].is_empty() {
        blocks.pop_front()
    } else {
        None
    }
}

/// `count` blocks without keys, in a vector that has room for one more block.
pub fn spare_blocks(alloc: Global, count: usize) -> Result<Vec<Block>, NoMemory>
    requires { count < 2 ^ 32 }
    ensures { IfOk result (AreSpare count) }
{
    let mut spare = Vec::with_capacity(alloc, count + 1)?;
    for i in 0..count {
        spare.push(Block::new(alloc)?)?;
    }
    Ok(spare)
}
