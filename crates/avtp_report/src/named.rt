//! Streams described in words.

use aaf_format::AafFormat;
use avtp_header::subtype;
use std::fmt;
use stream_report::{Class, Format, Stream};

/// The name of a stream's kind.
pub fn kind_of(stream: &Stream) -> &'static str {
    match stream.key.subtype {
        subtype::IEC_61883 => "iec",
        subtype::AAF => "aaf",
        subtype::CVF => "h264",
        subtype::CRF => "crf",
        _ => "other",
    }
}

pub fn class_name(class: Option<Class>) -> &'static str {
    match class {
        Some(Class::A) => "A",
        Some(Class::B) => "B",
        Some(Class::Longer) => "longer",
        Some(Class::Unknown) | None => "-",
    }
}

/// The format of a stream and the number of events in a packet, in words.
#[derive(Clone, Copy)]
pub struct InWords(pub Format, pub u32);

impl fmt::Display for InWords {
    fn fmt<W: fmt::Write>(&self, f: &mut fmt::Formatter<W>) -> fmt::Result {
        let count = self.1;
        match self.0 {
            Format::Aaf {
                format,
                rate,
                channels,
                depth,
                sparse,
            } => {
                let name = format_name(format);
                let rate = Hertz(rate);
                write!(
                    f,
                    "PCM {name}, {rate}, {channels} ch, {count} samples a packet"
                )?;
                if depth != 0 && u32::from(depth) != bits_of(format) {
                    write!(f, ", {depth} bits used")?;
                }
                if sparse {
                    write!(f, ", sparse")
                } else {
                    Ok(())
                }
            }
            Format::Iec { rate, quadlets } => {
                let rate = Hertz(rate);
                write!(f, "AM824, {rate}, {quadlets} ch, {count} blocks a packet")
            }
            Format::H264 => write!(f, "H.264"),
            Format::Crf {
                kind,
                base,
                pull,
                interval,
                points,
            } => {
                let kind = crf_name(kind);
                let pull = pull_name(pull);
                write!(
                    f,
                    "{kind} clock, {base} Hz{pull}, a timestamp each {interval} events, {points} a packet"
                )
            }
            Format::Unknown => write!(f, "not known"),
        }
    }
}

/// A sample rate.
#[derive(Clone, Copy)]
struct Hertz(Option<u32>);

impl fmt::Display for Hertz {
    fn fmt<W: fmt::Write>(&self, f: &mut fmt::Formatter<W>) -> fmt::Result {
        match self.0 {
            None => write!(f, "user rate"),
            Some(rate) if rate % 1000 == 0 => {
                let thousands = rate / 1000;
                write!(f, "{thousands} kHz")
            }
            Some(rate) => {
                let thousands = rate / 1000;
                let hundreds = rate % 1000 / 100;
                write!(f, "{thousands}.{hundreds} kHz")
            }
        }
    }
}

fn format_name(format: AafFormat) -> &'static str {
    match format {
        AafFormat::Float32 => "float32",
        AafFormat::Int32 => "int32",
        AafFormat::Int24 => "int24",
        AafFormat::Int16 => "int16",
    }
}

fn bits_of(format: AafFormat) -> u32 {
    match format {
        AafFormat::Float32 | AafFormat::Int32 => 32,
        AafFormat::Int24 => 24,
        AafFormat::Int16 => 16,
    }
}

fn crf_name(kind: u8) -> &'static str {
    match kind {
        0 => "user's",
        1 => "audio sample",
        2 => "video frame",
        3 => "video line",
        4 => "machine cycle",
        _ => "unknown",
    }
}

fn pull_name(pull: u8) -> &'static str {
    match pull {
        1 => " * 1000/1001",
        2 => " * 1001/1000",
        3 => " * 24/25",
        4 => " * 25/24",
        5 => " * 1/8",
        _ => "",
    }
}
