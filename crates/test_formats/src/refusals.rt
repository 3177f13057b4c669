//! Which packets are refused, and by which field.

use aaf_format::read_aaf;
use avtp_base::Field;
use avtp_base::rows::refused;
use avtp_packet::read_packet;
use crf_format::read_crf;
use cvf_format::read_cvf;
use iec61883_format::read_iec;
use std::alloc::Global;
use std::test::Fail;
use vectors_avtp::{bytes_of, check_rows, refusal_text, told_when_cut};

/// `read` if the packet is read, otherwise the refusal.
fn answer(alloc: Global, packet: &[u8]) -> Result<String, Fail> {
    match read_packet(packet) {
        Ok(_) => Ok(String::from_str(alloc, "read")?),
        Err(refusal) => Ok(refusal_text(alloc, refusal)?),
    }
}

/// Packets on both sides of the limit of each rule: the first and the last value that is refused, and the nearest
/// values that are read.
const REFUSALS: &str = "\
01 => read
 => subtype at 0 short
05 => read
6e => read
aaf 1=91 => version at 1
aaf 1=f1 => version at 1
aaf 16=00 => format at 16
aaf 16=01 => read
aaf 16=05 => format at 16
aaf 16=ff => format at 16
aaf 17=00 => read
aaf 17=a0 => read
aaf 17=b0 => nsr at 17
aaf 17=f0 => nsr at 17
aaf 18=00 => channels_per_frame at 17
aaf 19=00 => read
aaf 19=11 => bit_depth at 19
aaf 19=ff => bit_depth at 19
aaf 21=00 => read
aaf 21=14 => read
aaf 21=16 => stream_data_length at 20
aaf 21=19 => stream_data_length at 20
aaf 20=ff => stream_data_length at 20
iec 1=91 => version at 1
iec 1=f1 => version at 1
iec 22=3f => tag at 22
iec 22=40 => read
iec 22=7f => read
iec 22=80 => tag at 22
iec 22=ff => tag at 22
iec 21=00 => stream_data_length at 20
iec 21=07 => stream_data_length at 20
iec 21=08 => read
iec 21=09 => stream_data_length at 20
iec 21=10 => read
iec 21=37 => stream_data_length at 20
iec 21=39 => stream_data_length at 20
iec 20=ff => stream_data_length at 20
iec 24=00 => read
iec 24=40 => qi_1 at 24
iec 24=ff => qi_1 at 24
iec 25=00 => stream_data_length at 20
iec 25=01 => read
iec 25=05 => stream_data_length at 20
iec 25=0c => read
iec 25=ff => stream_data_length at 20
iec 26=40 => fn at 26
iec 26=ff => fn at 26
iec 26=08 => qpc at 26
iec 26=3f => qpc at 26
iec 26=04 => sph at 26
iec 26=07 => sph at 26
iec 27=ff => read
iec 28=10 => qi_2 at 28
iec 28=50 => qi_2 at 28
iec 28=d0 => qi_2 at 28
iec 28=80 => fmt at 28
iec 28=8f => fmt at 28
iec 28=91 => fmt at 28
iec 28=bf => fmt at 28
iec 29=00 => read
iec 29=06 => read
iec 29=07 => fdf at 29
iec 29=fe => fdf at 29
iec 29=ff => read
h264 1=91 => version at 1
h264 1=f1 => version at 1
h264 16=01 => cvf_format at 16
h264 16=03 => cvf_format at 16
h264 16=ff => cvf_format at 16
h264 17=00 => format_subtype at 17
h264 17=02 => format_subtype at 17
h264 17=ff => format_subtype at 17
h264 20=01 => stream_data_length at 20
h264 20=ff => stream_data_length at 20
h264 21=04 => stream_data_length at 20
h264 21=05 => read
h264 21=09 => stream_data_length at 20
h264 28=60 => nal_type at 28
h264 28=61 => read
h264 28=77 => read
h264 28=78 => nal_type at 28
h264 28=7b => nal_type at 28
h264 28=7d => nal_type at 28
h264 28=7f => nal_type at 28
h264 28=7c80 => fu_header at 29
h264 28=7c81 => read
h264 28=7c97 => read
h264 28=7c98 => fu_header at 29
h264 28=7cc5 => fu_header at 29
h264 28=7ce5 => fu_header at 29
h264 28=7c85 21=05 => fu_header at 29 short
h264 28=7c85 21=06 => read
crf 1=90 => version at 1
crf 1=f0 => version at 1
crf 12=a0 => read
crf 12=c0 => pull at 12
crf 12=ff => pull at 12
crf 16=0001 => crf_data_length at 16
crf 16=0010 => crf_data_length at 16
crf 18=0001 => read
crf 18=0000 => timestamp_interval at 18
aaf 16=05f00021 => format at 16
aaf 16=04f00021 => nsr at 17
aaf 16=04500021 => channels_per_frame at 17
aaf 16=0453ff21 => bit_depth at 19
aaf 16=0453ff10 => stream_data_length at 20
iec 21=079f 24=ff02fc000007 => tag at 22
iec 21=075f 24=ff02fc000007 => stream_data_length at 20
iec 21=315f 24=ff02fc000007 => qi_1 at 24
iec 21=315f 24=3f02fc000007 => fn at 26
iec 21=315f 24=3f023c000007 => qpc at 26
iec 21=315f 24=3f0204000007 => sph at 26
iec 21=315f 24=3f0200000007 => qi_2 at 28
iec 21=315f 24=3f0200008007 => fmt at 28
iec 21=315f 24=3f0200009007 => fdf at 29
iec 21=315f 24=3f0200009002 => stream_data_length at 20
h264 16=0000 21=04 28=7cc0 => cvf_format at 16
h264 16=0200 21=04 28=7cc0 => format_subtype at 17
h264 16=0201 21=04 28=78c0 => stream_data_length at 20
h264 16=0201 21=05 28=78c0 => nal_type at 28
h264 16=0201 21=05 28=7cc0 => fu_header at 29 short
crf 12=e0000000000700 19=00 => pull at 12
crf 12=a0000000000700 19=00 => base_frequency at 12
crf 12=a0000001000700 19=00 => crf_data_length at 16
crf 12=a0000001000800 19=00 => timestamp_interval at 18
";

#[test]
fn the_first_row_that_holds_refuses(rt: HostRuntime) -> Result<(), Fail> {
    let alloc = rt.alloc();
    check_rows(REFUSALS, |row| answer(alloc, &bytes_of(alloc, row)?))
}

/// Packets that are cut off: each length at which the answer changes, and the new answer.
const CUT: &str = "\
aaf => STREAM 48: read;
iec => STREAM 80: read;
h264 => STREAM 32: read;
h264 28=7c85 => STREAM 32: read;
crf => CRF 28: read;";

/// The refusals of a stream header that is cut off, each with the first length at which it occurs.
const STREAM_HEADER: &str =
    "0: subtype at 0 short; 1: version at 1 short; 2: sequence_num at 2 short; 3: tu at 3 short; 4: stream_id at 4 short; 12: avtp_timestamp at 12 short; 16: format_data at 16 short; 20: stream_data_length at 20 short; 22: format_flags at 22 short; 24: stream_data_length at 20;";

/// The refusals of a CRF packet's header that is cut off, each with the first length at which it occurs.
const CRF_HEADER: &str =
    "0: subtype at 0 short; 1: version at 1 short; 2: sequence_num at 2 short; 3: crf_type at 3 short; 4: stream_id at 4 short; 12: base_frequency at 12 short; 16: crf_data_length at 16 short; 18: timestamp_interval at 18 short; 20: crf_data_length at 16;";

/// The answers to a packet that is cut off, with a word for the refusals of its header.
fn answers_when_cut(alloc: Global, row: &str) -> Result<String, Fail> {
    let told = told_when_cut(
        alloc,
        &bytes_of(alloc, row)?,
        |packet| answer(alloc, packet),
    )?;
    let told = told.replace(alloc, STREAM_HEADER, "STREAM")?;
    Ok(told.replace(alloc, CRF_HEADER, "CRF")?)
}

#[test]
fn a_short_packet_is_refused_by_the_field_that_is_cut_off(rt: HostRuntime) -> Result<(), Fail> {
    let alloc = rt.alloc();
    check_rows(CUT, |row| answers_when_cut(alloc, row))
}

/// A wrong subtype is reported before a wrong version.
#[test]
fn a_reader_of_one_format_refuses_the_others(rt: HostRuntime) -> Result<(), Fail> {
    let packet = bytes_of(rt.alloc(), "6e91 len=99")?;
    for refusal in [
        read_aaf(&packet).err(),
        read_iec(&packet).err(),
        read_cvf(&packet).err(),
        read_crf(&packet).err(),
    ] {
        assert_eq!(rt; refusal, Some(refused(Field::Subtype, 0)));
    }
    Ok(())
}
