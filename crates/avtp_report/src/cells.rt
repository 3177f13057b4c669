//! The cells of the table.

use crate::named::{InWords, class_name, kind_of};
use crate::units::{Address, Micros, Thousandths};
use std::alloc::{AllocError, Global};
use stream_report::{Stream, Tally, class_of, drift_of};
use value_spread::Spread;

/// A column: its name, and what it holds.
#[derive(Clone, Copy)]
pub struct Heading {
    pub name: &'static str,
    pub meaning: &'static str,
}

/// The number of columns. The last column holds words with spaces between them.
pub const COLUMNS: usize = 34;

/// The columns.
pub static HEADINGS: [Heading; COLUMNS] = [
    Heading {
        name: "id",
        meaning: "the stream id",
    },
    Heading {
        name: "kind",
        meaning: "aaf, iec, h264 or crf",
    },
    Heading {
        name: "talker",
        meaning: "the address that it is sent from",
    },
    Heading {
        name: "destination",
        meaning: "the address that it is sent to",
    },
    Heading {
        name: "vlan",
        meaning: "the VLAN identifier",
    },
    Heading {
        name: "pcp",
        meaning: "the priority",
    },
    Heading {
        name: "packets",
        meaning: "packets that are not malformed",
    },
    Heading {
        name: "seconds",
        meaning: "from the first to the last",
    },
    Heading {
        name: "rate",
        meaning: "packets a second",
    },
    Heading {
        name: "nominal",
        meaning: "packets a second, by the format",
    },
    Heading {
        name: "lost",
        meaning: "packets that are missing",
    },
    Heading {
        name: "repeated",
        meaning: "packets that came again",
    },
    Heading {
        name: "disordered",
        meaning: "packets that came after later ones",
    },
    Heading {
        name: "gap_least",
        meaning: "from one arrival to the next, in microseconds: the least",
    },
    Heading {
        name: "gap_median",
        meaning: "the median",
    },
    Heading {
        name: "gap_99",
        meaning: "the 99th percentile",
    },
    Heading {
        name: "gap_most",
        meaning: "the greatest",
    },
    Heading {
        name: "lead_least",
        meaning: "timestamp minus arrival, in microseconds: the least",
    },
    Heading {
        name: "lead_median",
        meaning: "the median",
    },
    Heading {
        name: "lead_99",
        meaning: "the 99th percentile",
    },
    Heading {
        name: "lead_most",
        meaning: "the greatest",
    },
    Heading {
        name: "class",
        meaning: "the class whose max transit time the median keeps: A 2 ms, B 50 ms",
    },
    Heading {
        name: "off",
        meaning: "timestamps that do not advance by their packets' time",
    },
    Heading {
        name: "drift",
        meaning: "of timestamps against arrivals, in ppm",
    },
    Heading {
        name: "media",
        meaning: "the media rate that timestamps tell, against the nominal one, in ppm",
    },
    Heading {
        name: "restarts",
        meaning: "media clock restarts (mr)",
    },
    Heading {
        name: "tu",
        meaning: "packets with an uncertain timestamp",
    },
    Heading {
        name: "missing",
        meaning: "packets without a timestamp where one belongs",
    },
    Heading {
        name: "unwanted",
        meaning: "packets with a timestamp where none belongs",
    },
    Heading {
        name: "reserved",
        meaning: "packets with a reserved bit set",
    },
    Heading {
        name: "malformed",
        meaning: "packets that their format refuses",
    },
    Heading {
        name: "dbc",
        meaning: "AM824 packets whose block count does not continue",
    },
    Heading {
        name: "labels",
        meaning: "AM824 quadlets with a label other than 0x40",
    },
    Heading {
        name: "format",
        meaning: "the format in words",
    },
];

/// The cell of an unknown value.
const NONE: &str = "-";

/// The cells of a stream's row in the table.
pub fn cells_of(alloc: Global, stream: &Stream) -> Result<Vec<String>, AllocError> {
    let mut cells = Vec::new(alloc);
    add_sender(alloc, &mut cells, stream)?;
    add_rates(alloc, &mut cells, stream)?;
    for tally in [stream.lost(), stream.repeated(), stream.reordered()] {
        add_tally(alloc, &mut cells, tally)?;
    }
    add_spread(alloc, &mut cells, &stream.distances)?;
    add_spread(alloc, &mut cells, &stream.leads)?;
    add_stamps(alloc, &mut cells, stream)?;
    let tallies = [
        stream.restarts,
        stream.uncertain,
        stream.missing,
        stream.unwanted,
        stream.reserved,
        stream.malformed,
        stream.blocks,
        stream.labels,
    ];
    for tally in tallies {
        add_tally(alloc, &mut cells, tally)?;
    }
    let words = InWords(stream.format, stream.count);
    cells.push(format!(in alloc; "{words}")?)?;
    Ok(cells)
}

fn add_tally(alloc: Global, cells: &mut Vec<String>, tally: Tally) -> Result<(), AllocError> {
    let count = tally.count;
    cells.push(format!(in alloc; "{count}")?)?;
    Ok(())
}

fn add_text(alloc: Global, cells: &mut Vec<String>, text: &str) -> Result<(), AllocError> {
    cells.push(String::from_str(alloc, text)?)?;
    Ok(())
}

fn add_sender(alloc: Global, cells: &mut Vec<String>, stream: &Stream) -> Result<(), AllocError> {
    let id = stream.key.id;
    let kind = kind_of(stream);
    let source = Address(stream.sender.source);
    let destination = Address(stream.sender.destination);
    cells.push(format!(in alloc; "{id:016x}")?)?;
    add_text(alloc, cells, kind)?;
    cells.push(format!(in alloc; "{source}")?)?;
    cells.push(format!(in alloc; "{destination}")?)?;
    match stream.sender.tag {
        Some(tag) => {
            let vid = tag.vid;
            let pcp = tag.pcp;
            cells.push(format!(in alloc; "{vid}")?)?;
            cells.push(format!(in alloc; "{pcp}")?)?;
        }
        None => {
            add_text(alloc, cells, NONE)?;
            add_text(alloc, cells, NONE)?;
        }
    }
    Ok(())
}

fn add_rates(alloc: Global, cells: &mut Vec<String>, stream: &Stream) -> Result<(), AllocError> {
    let packets = stream.packets;
    cells.push(format!(in alloc; "{packets}")?)?;
    let time = stream.last_arrival.saturating_sub(stream.first_arrival);
    let seconds = Thousandths(i128::from(time / 1_000_000));
    cells.push(format!(in alloc; "{seconds}")?)?;
    let followed = i128::from(packets.saturating_sub(1));
    add_rate(alloc, cells, followed, i128::from(time))?;
    add_rate(alloc, cells, 1, i128::from(stream.packet_time))
}

/// Adds a rate in events per second, computed from `count` events in `time` nanoseconds.
fn add_rate(
    alloc: Global,
    cells: &mut Vec<String>,
    count: i128,
    time: i128,
) -> Result<(), AllocError> {
    match count.saturating_mul(1_000_000_000_000).checked_div(time) {
        Some(thousandths) if time > 0 => {
            let rate = Thousandths(thousandths);
            cells.push(format!(in alloc; "{rate}")?)?;
        }
        _ => add_text(alloc, cells, NONE)?,
    }
    Ok(())
}

fn add_spread(alloc: Global, cells: &mut Vec<String>, spread: &Spread) -> Result<(), AllocError> {
    let any = spread.count > 0;
    let values = [
        any.then_some(spread.least),
        spread.percentile(50),
        spread.percentile(99),
        any.then_some(spread.greatest),
    ];
    for value in values {
        match value {
            Some(value) => {
                let micros = Micros(value);
                cells.push(format!(in alloc; "{micros}")?)?;
            }
            None => add_text(alloc, cells, NONE)?,
        }
    }
    Ok(())
}

fn add_stamps(alloc: Global, cells: &mut Vec<String>, stream: &Stream) -> Result<(), AllocError> {
    add_text(alloc, cells, class_name(class_of(stream)))?;
    let off = stream.pace.misses().count;
    cells.push(format!(in alloc; "{off}")?)?;
    match drift_of(stream) {
        Some(parts) => {
            let ppm = Thousandths(i128::from(parts));
            cells.push(format!(in alloc; "{ppm}")?)?;
        }
        None => add_text(alloc, cells, NONE)?,
    }
    match stream.pace.media_rate() {
        Some(parts) => {
            let ppm = Thousandths(parts);
            cells.push(format!(in alloc; "{ppm}")?)?;
        }
        None => add_text(alloc, cells, NONE)?,
    }
    Ok(())
}
