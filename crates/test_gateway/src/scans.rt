//! What a scan finds: each fault at the first packet and at a later packet, and packets that only seem to have a fault.

use crate::captures::{Recorded, number, records_of};
use crate::turning::scanned;
use am824_gateway::To;
use avtp_base::NoMemory;
use std::alloc::Global;
use std::test::Fail;
use vectors_avtp::check_rows;

/// Streams, bytes of frames that are changed, and what a scan for a gateway to AM824 finds: a fault and the number of
/// its frame, or the shape. `2@34=02` sets byte 34 of the second frame to 2. In a frame of PCM, byte 18 is the subtype,
/// byte 19 has `sv`, byte 21 has `tu`, byte 29 ends the stream ID, byte 34 is the format, bytes 35 and 36 have the rate
/// and the channels, byte 37 is the bit depth, and bytes 38 and 39 are the length.
const TO_AM824: &str = "\
packets=3 | => 48000 2
rate=192000 channels=256 count=1 | => 192000 256
packets=0 | => none
am824 | => Kind at 1
packets=2, am824 start=1002250000 | => Kind at 3
 | 1@18=03 => Kind at 1
 | 2@18=03 3@34=02 => Kind at 2
 | 1@19=01 1@18=03 => 48000 2
count=8 | 1@34=02 => Format at 1
count=8 | 3@34=01 => Format at 3
count=8 | 2@34=04 2@37=10 => Format at 2
 | 1@37=17 => Format at 1
 | 3@37=10 => Format at 3
 | 1@37=00 2@37=18 => 48000 2
rate=8000 | 1@35=10 => Rate at 1
 | 1@35=20 => Rate at 1
 | 3@35=a0 => Rate at 3
 | 2@35=40 => Rate at 2
channels=257 count=1 | => Channels at 1
 | 2@36=03 => Channels at 2
 | 3@36=01 => Channels at 3
 | 2@36=03 2@35=40 => Rate at 2
count=8 | 2@34=02 2@36=03 => Format at 2
 | 1@38=0000 1@35=10 => 48000 2
 | 1@35=00 => 48000 2
 | 1@35=00 1@36=03 1@37=10 2@35=00 => 48000 2
 | 1@35=00 2@35=40 => Rate at 3
 | 2@19=01 2@35=40 => 48000 2
 | 2@29=02 2@35=40 => 48000 2
 | 2@34=09 => 48000 2
 | 2@35=b0 => 48000 2
 | 2@39=25 2@35=40 => 48000 2
 | 2@16=2201 2@35=40 => 48000 2
 | 2@21=01 2@35=40 => Rate at 2
 | 2@19=80 2@35=40 => Rate at 2
";

/// Streams, bytes of frames that are changed, and what a scan for a gateway to PCM finds. In a frame of AM824, byte 43
/// is DBS, byte 45 is DBC, byte 47 is FDF, and the first quadlet begins at byte 50.
const TO_AAF: &str = "\
am824 | => 48000 2
am824 rate=176400 channels=256 count=1 | => 176400 256
am824 packets=0 | => none
packets=1 | => Kind at 1
am824 packets=2, start=1002250000 | => Kind at 3
am824 | 2@18=03 => Kind at 2
am824 | 2@47=01 => Rate at 2
am824 rate=32000, am824 rate=48000 start=1003000000 | => Rate at 4
am824 | 3@43=03 => Channels at 3
am824 | 2@43=06 => Channels at 2
am824 | 1@50=41 => Label at 1
am824 | 3@94=80 => Label at 3
am824 | 3@58=00 2@62=4f => Label at 2
am824 | 2@43=03 2@50=00 => Channels at 2
am824 | 2@47=03 2@43=03 => Rate at 2
am824 | 1@47=ff 1@50=00 1@43=01 => 48000 2
am824 | 2@38=0008 => 48000 2
am824 | 2@19=01 2@50=00 => 48000 2
am824 | 2@22=03 2@50=00 => 48000 2
am824 | 2@47=07 2@50=00 => 48000 2
am824 | 2@42=7f 2@50=00 => 48000 2
am824 | 2@21=01 2@50=00 => Label at 2
am824 | 2@19=80 2@50=00 => Label at 2
";

fn put(frame: &mut Vec<u8>, at: usize, bytes: &[u8]) {
    for (k, byte) in bytes.iter().enumerate() {
        if let Some(place) = frame.get_mut(at.saturating_add(k)) {
            *place = *byte;
        }
    }
}

/// Changes bytes of frames as the words of a row say.
pub fn change(alloc: Global, records: &mut Vec<Recorded>, words: &str) -> Result<(), NoMemory> {
    for word in words.split_ascii_whitespace() {
        let (place, digits) = word.split_once('=').unwrap_or((word, ""));
        let (record, at) = place.split_once('@').unwrap_or((place, ""));
        let bytes = hex::decode(alloc, digits).unwrap_or(Vec::new(alloc));
        let record = (number(record) as usize).saturating_sub(1);
        if let Some(record) = records.get_mut(record) {
            put(&mut record.frame, number(at) as usize, &bytes);
        }
    }
    Ok(())
}

/// The records of a row's streams, with the row's changes.
pub fn changed(alloc: Global, row: &str) -> Result<Vec<Recorded>, NoMemory> {
    let (streams, changes) = row.split_once('|').unwrap_or((row, ""));
    let mut records = records_of(alloc, streams)?;
    change(alloc, &mut records, changes)?;
    Ok(records)
}

fn found(alloc: Global, to: To, records: &[Recorded]) -> Result<String, Fail> {
    Ok(match scanned(to, records) {
        Err((fault, frame)) => format!(in alloc; "{fault:?} at {frame}")?,
        Ok(None) => format!(in alloc; "none")?,
        Ok(Some(shape)) => {
            let (rate, channels) = (shape.rate, shape.channels);
            format!(in alloc; "{rate} {channels}")?
        }
    })
}

#[test]
fn the_first_fault_is_found(rt: HostRuntime) -> Result<(), Fail> {
    let alloc = rt.alloc();
    for (to, rows) in [(To::Am824, TO_AM824), (To::Aaf, TO_AAF)] {
        check_rows(rows, |row| found(alloc, to, &changed(alloc, row)?))?;
    }
    Ok(())
}
