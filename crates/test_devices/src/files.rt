//! Devices that write to sinks and files, and calls of sinks that fail.

use crate::items::{PACKET, Samples, late, shown, taken, unit};
use avtp_files::FileSink;
use avtp_memory::MemorySink;
use device_rack::{AnnexBDevice, RawDevice, Silence};
use std::test::Fail;
use std::{env, fs};

/// How many bytes are written if call 1, 2, 3 .. of a sink fails. The sink takes 10 bytes at a time. The bytes are two
/// packets with 24 bytes of silence between them. Only nine calls are made, so call 10 cannot fail and all 72 bytes are
/// written.
const RAW: [usize; 10] = [0, 10, 20, 24, 34, 44, 48, 58, 68, 72];

#[test]
fn samples_are_written_up_to_the_call_that_fails(rt: HostRuntime) -> Result<(), Fail> {
    let alloc = rt.alloc();
    let third = Samples {
        base: 1_002_250_000,
        ..PACKET
    };
    let items = [shown(alloc, PACKET)?, shown(alloc, third)?];
    let mut all = vec![in alloc; 1u8; 24]?;
    all.resize(48, 0)?;
    all.resize(72, 1)?;
    let mut call: u64 = 0;
    for written in RAW {
        call = call.saturating_add(1);
        let sink = MemorySink::over(alloc, vec![in alloc; call]?).at_most(10);
        let mut device = RawDevice::over(sink, Silence::Zero);
        let whole = taken(&mut device, &items) == 2;
        let bytes = device.sink().bytes();
        assert_eq!(rt;
            (bytes.len(), whole),
            (written, written == 72),
            "call {call}"
        );
        assert!(rt; all.as_slice().starts_with(bytes), "call {call}: {bytes:?}");
    }
    Ok(())
}

/// How many bytes of two units are written if call 1, 2, 3 .. of a sink fails. The sink takes all bytes at once. Only
/// four calls are made, so call 5 cannot fail and all 14 bytes are written.
const UNITS: [usize; 5] = [0, 4, 8, 12, 14];

#[test]
fn units_stand_after_start_codes(rt: HostRuntime) -> Result<(), Fail> {
    let alloc = rt.alloc();
    let items = [
        late(9),
        shown(alloc, PACKET)?,
        unit(alloc, &[0x67, 0x42, 0x00, 0x0a])?,
        unit(alloc, &[0x65, 0xff])?,
    ];
    let all = [0, 0, 0, 1, 0x67, 0x42, 0x00, 0x0a, 0, 0, 0, 1, 0x65, 0xff];
    let mut call: u64 = 0;
    for written in UNITS {
        call = call.saturating_add(1);
        let mut device = AnnexBDevice::over(MemorySink::over(alloc, vec![in alloc; call]?));
        let whole = taken(&mut device, &items) == 4;
        let bytes = device.sink().bytes();
        assert_eq!(rt;
            (bytes.len(), whole),
            (written, written == 14),
            "call {call}"
        );
        assert!(rt; all.starts_with(bytes), "call {call}: {bytes:?}");
    }
    Ok(())
}

#[test]
fn a_real_file_is_written_and_a_folder_is_not(rt: HostRuntime) -> Result<(), Fail> {
    let alloc = rt.alloc();
    let folder = env::temp_dir(&rt)?;
    let path = folder.join(alloc, "test_devices_file")?;
    let path = path.to_str().ok_or("a path of text")?;
    let items = [shown(alloc, PACKET)?, unit(alloc, &[0x67])?];
    let sink = FileSink::named(rt, String::from_str(alloc, path)?, Vec::new(alloc));
    let mut raw = RawDevice::over(sink, Silence::Zero);
    let sink = FileSink::named(rt, String::from_str(alloc, "/")?, Vec::new(alloc));
    let mut units = AnnexBDevice::over(sink);
    assert_eq!(rt; taken(&mut raw, &items), 2);
    assert_eq!(rt; taken(&mut units, &items), 1);
    drop(raw);
    assert_eq!(rt; fs::read(&rt, path)?.as_slice(), [1; 24].as_slice());
    fs::remove_file(&rt, path)?;
    Ok(())
}
