//! Silence for samples that are missing.

use crate::items::{PACKET, Samples, late, len, shown, taken, unit};
use avtp_memory::MemorySink;
use device_rack::{RawDevice, Silence};
use std::test::Fail;

/// One sample of one byte, which takes 4 ns.
const SHORT: Samples = Samples {
    base: 0,
    num: 4,
    den: 1,
    count: 1,
    size: 1,
    value: 1,
};

/// A batch, the instant of the next batch, and how many bytes of silence are between them.
#[derive(Clone, Copy)]
struct Gap {
    before: Samples,
    next: u32,
    silent: usize,
}

const GAPS: [Gap; 8] = [
    // In the first of these three rows, one packet is missing. In the second row, no packet is missing. In the third
    // row, the next packet begins at the same instant as the packet before it.
    Gap {
        before: PACKET,
        next: 1_002_250_000,
        silent: 24,
    },
    Gap {
        before: PACKET,
        next: 1_002_125_000,
        silent: 0,
    },
    Gap {
        before: PACKET,
        next: 1_002_000_000,
        silent: 0,
    },
    // In the first of these two rows, half a sample is missing; in the second, less than half a sample.
    Gap {
        before: SHORT,
        next: 6,
        silent: 1,
    },
    Gap {
        before: SHORT,
        next: 5,
        silent: 0,
    },
    // Two samples end at 8 / 3 ns, which is rounded down to 2 ns. One and a half samples of 4 / 3 ns fit into the 2 ns
    // from 2 ns to 4 ns.
    Gap {
        before: Samples {
            num: 4,
            den: 3,
            count: 2,
            ..SHORT
        },
        next: 4,
        silent: 2,
    },
    // the samples have no bytes
    Gap {
        before: Samples { size: 0, ..SHORT },
        next: 100,
        silent: 0,
    },
    // there are at most 16,777,216 bytes of silence, in whole samples
    Gap {
        before: Samples { size: 3, ..SHORT },
        next: 1_000_000_000,
        silent: 16_777_215,
    },
];

/// The silence has the spacing and the sample size of the batch before it.
#[test]
fn silence_stands_for_missing_samples_to_the_nearest_whole_one(
    rt: HostRuntime,
) -> Result<(), Fail> {
    let alloc = rt.alloc();
    for gap in &GAPS {
        let next = Samples {
            base: gap.next,
            num: 1,
            den: 2,
            count: 1,
            size: 2,
            value: 2,
        };
        let items = [
            late(9),
            shown(alloc, gap.before)?,
            unit(alloc, &[7, 7])?,
            shown(alloc, next)?,
        ];
        let mut device = RawDevice::over(MemorySink::over(alloc, Vec::new(alloc)), Silence::Zero);
        assert_eq!(rt; taken(&mut device, &items), 4);
        let mut want = vec![in alloc; 1u8; len(gap.before)]?;
        want.resize(len(gap.before).saturating_add(gap.silent), 0)?;
        want.extend_from_slice(&[2, 2])?;
        let bytes = device.sink().bytes();
        assert!(rt;
            bytes == want.as_slice(),
            "next at {}: {} bytes",
            gap.next,
            bytes.len()
        );
    }
    Ok(())
}

#[test]
fn silence_of_am824_is_a_label_and_a_value_of_zero(rt: HostRuntime) -> Result<(), Fail> {
    let alloc = rt.alloc();
    let items = [
        shown(alloc, Samples { size: 8, ..SHORT })?,
        shown(alloc, Samples { base: 8, ..SHORT })?,
    ];
    let sink = MemorySink::over(alloc, Vec::new(alloc)).at_most(3);
    let mut device = RawDevice::over(sink, Silence::Am824);
    assert_eq!(rt; taken(&mut device, &items), 2);
    let want = [1, 1, 1, 1, 1, 1, 1, 1, 0x40, 0, 0, 0, 0x40, 0, 0, 0, 1];
    assert_eq!(rt; device.sink().bytes(), want.as_slice());
    Ok(())
}
