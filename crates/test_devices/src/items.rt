//! Items as a listener shows them.

use avtp_base::Bytes;
use device_rack::Device;
use sample_schedule::{Batch, Reason, Shown};
use std::alloc::Global;
use std::test::Fail;
use time_unfold::Line;

/// Samples: their first instant, the spacing as a fraction, their count, the number of bytes in each sample, and the
/// value of each byte.
#[derive(Clone, Copy)]
pub struct Samples {
    pub base: u32,
    pub num: u32,
    pub den: u32,
    pub count: u8,
    pub size: u8,
    pub value: u8,
}

/// Six samples of 48 kHz.
pub const PACKET: Samples = Samples {
    base: 1_002_000_000,
    num: 1_000_000_000,
    den: 48_000,
    count: 6,
    size: 4,
    value: 1,
};

/// How many bytes the samples have.
pub fn len(samples: Samples) -> usize {
    usize::from(samples.count) * usize::from(samples.size)
}

fn batch_of(samples: Samples, bytes: Bytes) -> Result<Batch, Fail> {
    if samples.num == 0 || samples.den == 0 || samples.count == 0 {
        return Err(Fail::from("a batch has samples, on a line"));
    }
    if bytes.as_slice().len() % usize::from(samples.count) != 0 {
        return Err(Fail::from("a batch has whole samples"));
    }
    Ok(Batch {
        frame: 1,
        seq: 0,
        line: Line {
            base: i64::from(samples.base),
            num: u64::from(samples.num),
            den: u64::from(samples.den),
        },
        from: 0,
        count: u32::from(samples.count),
        bytes,
    })
}

pub fn shown(alloc: Global, samples: Samples) -> Result<Shown, Fail> {
    let bytes = vec![in alloc; samples.value; len(samples)]?;
    Ok(Shown::Present(batch_of(samples, Bytes::over(bytes))?))
}

pub fn unit(alloc: Global, bytes: &[u8]) -> Result<Shown, Fail> {
    let once = Samples {
        base: 1_002_000_000,
        num: 1,
        den: 1,
        count: 1,
        size: 0,
        value: 0,
    };
    let bytes = bytes.to_vec(alloc)?;
    Ok(Shown::Present(batch_of(once, Bytes::over(bytes))?))
}

pub fn late(frame: u64) -> Shown {
    Shown::Flag {
        frame,
        seq: 0,
        reason: Reason::Late,
    }
}

/// How many of the items a device takes before it fails.
pub fn taken<D: Device>(device: &mut D, items: &[Shown]) -> usize {
    let mut taken: usize = 0;
    for item in items {
        if device.take(item).is_err() {
            return taken;
        }
        taken = taken.saturating_add(1);
    }
    taken
}
