//! Tests of captures, pcap and pcapng: their records, and how reading them ends.

use crate::reading::{Way, told};
use avtp_base::Field;
use avtp_base::rows::refused;
use pcapng_frames::Ng;
use std::alloc::Global;
use std::test::Fail;
use vectors_avtp::{bytes_of, check_rows, told_when_cut};

/// A way of reading in which no call fails and the limit is never reached.
const FREE: Way = Way {
    most: 65_536,
    limit: u32::MAX,
    fails: 0,
};

/// Captures, and what is read from each.
const CAPTURES: &str = "\
pcap => 1000000000 66 66, Some(Whole)
pcapng => 1000000000 66 66, Some(Whole)
// Each byte order and each unit of a classic capture.
d4c3b2a1 0200 0400 00000000 00000000 00000400 01000000 01000000 f4010000 03000000 42000000 070809 => 1000500000 66 3, Some(Whole)
4d3cb2a1 0200 0400 00000000 00000000 00000400 01000000 01000000 f4010000 03000000 42000000 070809 => 1000000500 66 3, Some(Whole)
a1b2c3d4 0002 0004 00000000 00000000 00040000 00000001 00000001 000001f4 00000003 00000042 070809 => 1000500000 66 3, Some(Whole)
a1b23c4d 0002 0004 00000000 00000000 00040000 00000001 00000001 000001f4 00000003 00000042 070809 => 1000000500 66 3, Some(Whole)
// A fraction of at least one second, and refused fields.
pcap 28=00ca9a3b => 2000000000 66 66, Some(Whole)
pcap 0=00 len=4 => magic at 0
pcap 4=03 len=6 => version_major at 4
pcap 20=02 => network at 20
pcap 34=04 len=35 => incl_len at 32 short
pcap 34=04 len=36 => incl_len at 32
// The fields of blocks, each with one byte changed.
pcapng 0=0b => magic at 0
pcapng 8=4e => byte_order_magic at 8
pcapng 4=18 => block_length at 4
pcapng 4=1d => block_length at 4
pcapng 12=02 => section_version at 12
pcapng 24=18 => block_trailer at 24
pcapng 32=10 => block_length at 32
pcapng 36=02 => link_type at 36
pcapng 46=0d => option_length at 44
pcapng 46=02 => if_tsresol at 44
pcapng 48=13 => if_tsresol at 44
pcapng 48=c0 => if_tsresol at 44
pcapng 44=0e => if_tsoffset at 44
pcapng 68=01 => interface_id at 68
pcapng 80=45 => captured_length at 80
pcapng 156=60 => block_trailer at 156
// Timestamp units of an interface, and a timestamp in each unit.
pcapng 48=00 72=0000000001000000 => 1000000000 66 66, Some(Whole)
pcapng 48=00 72=0100000000000000 => timestamp_range at 72
pcapng 48=00 72=00000000ffffffff => 4294967295000000000 66 66, Some(Whole)
pcapng 48=03 72=00000000dc050000 => 1500000000 66 66, Some(Whole)
pcapng 48=06 72=0000000041420f00 => 1000001000 66 66, Some(Whole)
pcapng 48=09 72=0000000001ca9a3b => 1000000001 66 66, Some(Whole)
pcapng 48=0a 72=0000000013000000 => 1 66 66, Some(Whole)
pcapng 48=12 72=ffffffffffffffff => 18446744073 66 66, Some(Whole)
pcapng 48=80 72=0000000007000000 => 7000000000 66 66, Some(Whole)
pcapng 48=81 72=0000000003000000 => 1500000000 66 66, Some(Whole)
pcapng 48=a0 72=0500000000000080 => 5500000000 66 66, Some(Whole)
pcapng 48=bf 72=ffffffffffffffff => 1999999999 66 66, Some(Whole)
// A big-endian section, whose interface has a name and an offset of -1 s.
0a0d0d0a0000001c1a2b3c4d00010000ffffffffffffffff0000001c 00000001000000300001000000000000000200056574683078000000000e0008ffffffffffffffff0000000000000030 000000060000002800000000000000000016e3600000000500000005616263646500000000000028 => 500000000 5 5, Some(Whole)
// A second section starts without interfaces, and can have another byte order.
pcapng len=28 010000001c000000010000000000000009000100090000001c000000 060000002400000000000000000000000700000003000000030000006162630024000000 0a0d0d0a0000001c1a2b3c4d00010002ffffffffffffffff0000001c 0000000100000014000100000000000000000014 000000060000002400000000000000000000000900000004000000046162636400000024 => 7 3 3, 9000 4 4, Some(Whole)
pcapng len=28 0100000014000000010000000000000014000000 060000002400000000000000000000000700000003000000030000006162630024000000 0a0d0d0a0000001c1a2b3c4d00010000ffffffffffffffff0000001c 000000060000002400000000000000000000000900000004000000046162636400000024 => 7000 3 3, interface_id at 120
// Blocks that are skipped, and options of a packet.
pcapng len=28 010000802c000000000102030405060708090a0b0c0d0e0f101112131415161718191a1b1c1d1e1f2c000000 0100000014000000010000000000000014000000 0500000014000000000102030405060714000000 010000001c000000010000000000000009000100030000001c000000 060000003400000001000000000000000200000007000000070000006162636465666700010004006e6f74650000000034000000 040000000c0000000c000000 => 2000000 7 7, Some(Whole)
// If an option occurs twice, the later one counts. Nothing is read after the end of the options.
pcapng len=28 010000003c000000010000000000000009000100090000000e000800050000000000000009000100000000000e00080001000000000000003c000000 060000002400000000000000000000000200000001000000010000006100000024000000 => 3000000000 1 1, Some(Whole)
pcapng len=28 01000000280000000100000000000000090001000900000000000000090001000000000028000000 060000002400000000000000000000000200000001000000010000006100000024000000 => 2 1 1, Some(Whole)
// A packet before the epoch, a packet in the last microsecond that can be recorded, and a packet in the next
// microsecond.
pcapng len=28 010000002000000001000000000000000e000800ffffffffffffffff20000000 060000002400000000000000000000003f420f0001000000010000006100000024000000 => timestamp_range at 72
pcapng len=28 010000002000000001000000000000000e000800ffffffff0000000020000000 060000002400000000000000000000003f420f0001000000010000006100000024000000 => 4294967295999999000 1 1, Some(Whole)
pcapng len=28 010000002000000001000000000000000e000800ffffffff0000000020000000 0600000024000000000000000000000040420f0001000000010000006100000024000000 => timestamp_range at 72
// A wrong trailer after a whole packet, and an option whose value runs into the trailer.
pcapng len=28 0100000014000000010000000000000014000000 060000002400000000000000000000000100000002000000020000006162000024000000 060000002400000000000000000000000200000002000000020000006364000020000000 => 1000 2 2, block_trailer at 116
pcapng len=28 0100000020000000010000000000000009000100090000000300010020000000 => option_length at 52";

/// The result is the same in pieces of one byte and of 65,536 bytes.
#[test]
fn a_capture_is_read_up_to_what_refuses_it(rt: HostRuntime) -> Result<(), Fail> {
    let alloc = rt.alloc();
    for most in [1usize, 65_536] {
        check_rows(CAPTURES, |row| {
            told(alloc, &bytes_of(alloc, row)?, Way { most, ..FREE })
        })?;
    }
    Ok(())
}

/// Captures that are cut off: each length where the result of reading changes, and the new result.
const CUT: &str = "\
pcap => 0: magic at 0 short; 4: version_major at 4 short; 6: version_minor at 6 short; 8: thiszone at 8 short; 12: sigfigs at 12 short; 16: snaplen at 16 short; 20: network at 20 short; 24: Some(Whole); 25: ts_sec at 24 short; 28: ts_fraction at 28 short; 32: incl_len at 32 short; 36: orig_len at 36 short; 40: packet_bytes at 40 short; 106: 1000000000 66 66, Some(Whole);
pcapng => 0: magic at 0 short; 4: block_length at 4 short; 8: block_body at 8 short; 28: Some(Whole); 29: block_type at 28 short; 32: block_length at 32 short; 36: block_body at 36 short; 60: Some(Whole); 61: block_type at 60 short; 64: block_length at 64 short; 68: block_body at 68 short; 160: 1000000000 66 66, Some(Whole);";

#[test]
fn a_short_capture_is_refused_by_the_field_that_is_cut_off(rt: HostRuntime) -> Result<(), Fail> {
    let alloc = rt.alloc();
    check_rows(CUT, |row| {
        told_when_cut(
            alloc,
            &bytes_of(alloc, row)?,
            |capture| told(alloc, capture, FREE),
        )
    })
}

/// A capture of two records, the first of 66 bytes, the second of one byte.
const TWO: &str = "pcap 02000000 f4010000 01000000 01000000 05";

/// The limit, the call that fails, and what is read of the two records.
const ENDS: &str = "\
123 0 => 1000000000 66 66, 2000000500 1 1, Some(Whole)
122 0 => 1000000000 66 66, Some(Limit)
106 0 => 1000000000 66 66, Some(Limit)
105 0 => Some(Limit)
123 2 => Some(ReadFault)
123 3 => 1000000000 66 66, Some(ReadFault)
123 4 => 1000000000 66 66, 2000000500 1 1, Some(ReadFault)";

/// What is read of the two records, with the limit and the call that fails of a row.
fn told_of_two(alloc: Global, row: &str) -> Result<String, Fail> {
    let (limit, fails) = row.split_once(' ').ok_or("a row without a call")?;
    let way = Way {
        most: 106,
        limit: limit.parse()?,
        fails: fails.parse()?,
    };
    told(alloc, &bytes_of(alloc, TWO)?, way)
}

#[test]
fn reading_ends_at_a_limit_or_at_a_call_that_fails(rt: HostRuntime) -> Result<(), Fail> {
    let alloc = rt.alloc();
    check_rows(ENDS, |row| told_of_two(alloc, row))
}

/// The reader accepts at most 256 interfaces in a section.
#[test]
fn one_interface_too_many_is_refused(rt: HostRuntime) -> Result<(), Fail> {
    let mut capture = bytes_of(rt.alloc(), "pcapng len=28")?;
    let interface = bytes_of(rt.alloc(), "0100000014000000010000000000000014000000")?;
    for _ in 0..256 {
        capture.extend_from_slice(&interface)?;
    }
    let mut found = told(rt.alloc(), &capture, FREE)?;
    capture.extend_from_slice(&interface)?;
    found.push_str(", ")?;
    found.push_str(told(rt.alloc(), &capture, FREE)?.as_str())?;
    assert!(rt;
        found.as_str() == "Some(Whole), interfaces at 5148",
        "{found}"
    );
    Ok(())
}

/// If the first block is not a section header, the pcapng reader refuses the type of that block.
#[test]
fn a_reader_of_pcapng_wants_a_section_first(rt: HostRuntime) -> Result<(), Fail> {
    let mut reader = Ng::new(rt.alloc())?;
    assert_eq!(rt;
        reader.feed(&[0x0b, 0x0d, 0x0d, 0x0a]),
        Err(refused(Field::BlockType, 0))
    );
    Ok(())
}
