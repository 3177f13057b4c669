//! Buffers that are used again.

ghost use Rattle.std.specs.Prelude.{◌≡◌, ◌≤◌, [], vec_capacity, IfOk};

use avtp_base::{Bytes, NoMemory};
use std::alloc::Global;

/// The maximum number of buffers that a pool keeps.
const MOST: usize = 64;

/// Sample buffers that the caller has given back. The pool's buffers are used for later samples before more memory is
/// allocated.
#[derive(Drop)]
pub struct BufferPool {
    buffers: Vec<Vec<u8>>,
}

impl BufferPool {
    /// An empty pool. Reserves the memory for its list of buffers.
    pub fn new(alloc: Global) -> Result<Self, NoMemory> {
        let buffers = Vec::with_capacity(alloc, MOST)?;
        Ok(BufferPool { buffers })
    }

    /// Keeps the buffer of these samples, or drops it if the pool is full.
    #[inline(always)]
    pub fn give_back(&mut self, samples: Bytes) {
        if self.buffers.len() < self.buffers.capacity() {
            self.buffers.push_reserved(samples.into_vec());
        }
    }

    /// An empty buffer with room for `size` bytes: the pool's last buffer if that fits, otherwise a new one. The pool's
    /// last buffer is freed if it is too small. The last buffer is also freed if it has room for more than about 2 *
    /// `size` bytes, because small packets must not hold the memory of large ones. If `size` is 0, the pool is not
    /// changed.
    #[inline(always)]
    pub fn take(&mut self, alloc: Global, size: usize) -> Result<Vec<u8>, NoMemory>
        ensures empty { IfOk result (λ buffer. buffer.items ≡ []) }
        ensures room { IfOk result (λ buffer. size ≤ vec_capacity buffer) }
    {
        if size > 0 {
            if let Some(mut buffer) = self.buffers.pop() {
                buffer.clear();
                if size <= buffer.capacity() && buffer.capacity() / 2 <= size {
                    return Ok(buffer);
                }
            }
        }
        let buffer = Vec::with_capacity(alloc, size)?;
        Ok(buffer)
    }

    /// A copy of these samples.
    #[inline(always)]
    pub fn copy(&mut self, alloc: Global, samples: &[u8]) -> Result<Bytes, NoMemory>
        ensures { IfOk result (λ bytes. bytes ≡ samples.now) }
    {
        let mut buffer = self.take(alloc, samples.len())?;
        buffer.extend_from_slice(samples)?;
        Ok(Bytes::over(buffer))
    }
}
