//! The pictures of a stream. For each interval of time, a picture has a line from the least value in the interval to
//! the greatest.

use crate::units::Signed;
use std::io::{self, Write};
use stream_report::{Column, Range, Stream, Trace};
use value_spread::Spread;

/// The width and height of a picture, in its own units.
const WIDTH: u64 = 10_000;

const HEIGHT: u64 = 1_000;

/// Which values of the columns a picture shows.
#[derive(Clone, Copy)]
pub enum Shown {
    Lead,
    Distance,
}

/// The values at the lower and the upper edge of a picture.
#[derive(Clone, Copy)]
struct Scale {
    low: i64,
    high: i64,
}

/// Writes a picture of a stream over the duration of the capture.
pub fn write_chart<W: Write>(
    out: &mut W,
    stream: &Stream,
    shown: Shown,
    duration: u64,
) -> io::Result<()> {
    let (spread, name, style) = match shown {
        Shown::Lead => (&stream.leads, "Lead", "lead"),
        Shown::Distance => (&stream.distances, "Arrival distance", "gap"),
    };
    let (Some(trace), Some(scale)) = (&stream.trace, scale_of(spread)) else {
        return Ok(());
    };
    let high = Signed(scale.high);
    let low = Signed(scale.low);
    writeln!(
        out,
        "<figure><figcaption><span>{name}</span><span>{low} to {high}</span></figcaption>"
    )?;
    write!(
        out,
        "<svg viewBox=\"0 0 {WIDTH} {HEIGHT}\" preserveAspectRatio=\"none\" role=\"img\" aria-label=\"{name}\">"
    )?;
    write_rules(out, scale)?;
    if stream.lost().count > 0 {
        write_losses(out, trace, duration)?;
    }
    write!(out, "<path class=\"{style}\" d=\"")?;
    for column in trace.columns().iter() {
        write_column(out, trace, column, shown, scale, duration)?;
    }
    writeln!(out, "\"/></svg>")?;
    let end = Signed(i64::try_from(duration).unwrap_or(i64::MAX));
    writeln!(
        out,
        "<figcaption class=\"foot\"><span>0 s</span><span>{end}</span></figcaption></figure>"
    )
}

/// A scale for most values: from the 1st percentile to the 99th, with a margin of at least a quarter of that range. If
/// no value is negative, the scale does not go below 0. Values outside the scale are drawn at its edge.
fn scale_of(spread: &Spread) -> Option<Scale> {
    let low = spread.percentile(1)?;
    let high = spread.percentile(99)?;
    let part = high.saturating_sub(low) / 4;
    let part = part
        .max(low.saturating_abs().max(high.saturating_abs()) / 50)
        .max(500);
    let lowest = if spread.least < 0 { i64::MIN } else { 0 };
    Some(Scale {
        low: low
            .saturating_sub(part)
            .max(spread.least.saturating_sub(part))
            .max(lowest),
        high: high
            .saturating_add(part)
            .min(spread.greatest.saturating_add(part)),
    })
}

/// How far a value is from the top of the picture.
fn down(scale: Scale, value: i64) -> u64 {
    let value = value.max(scale.low).min(scale.high);
    let all = scale.high.abs_diff(scale.low);
    part_of(HEIGHT, scale.high.abs_diff(value), all)
}

/// How far a time is from the left edge of the picture.
fn right(since: u64, duration: u64) -> u64 {
    part_of(WIDTH, since, duration)
}

/// The fraction `part / all` of `length`. The result is at most `length`. If `all` is 0, the result is 0.
fn part_of(length: u64, part: u64, all: u64) -> u64 {
    let product = u128::from(part).saturating_mul(u128::from(length));
    let scaled = product.checked_div(u128::from(all)).unwrap_or(0);
    u64::try_from(scaled).unwrap_or(length).min(length)
}

/// Where a column begins, in nanoseconds.
fn begin_of(trace: &Trace, column: &Column) -> u64 {
    column.slot.saturating_mul(trace.width())
}

/// Draws three lines across the picture, and one more at 0 if the scale includes negative and positive values.
fn write_rules<W: Write>(out: &mut W, scale: Scale) -> io::Result<()> {
    write!(
        out,
        "<path class=\"rule\" d=\"M0 250H{WIDTH}M0 500H{WIDTH}M0 750H{WIDTH}"
    )?;
    if scale.low < 0 && scale.high > 0 {
        let zero = down(scale, 0);
        write!(out, "M0 {zero}H{WIDTH}M0 {zero}H{WIDTH}")?;
    }
    write!(out, "\"/>")
}

/// Draws a line from top to bottom at the beginning of each column that has missing packets.
fn write_losses<W: Write>(out: &mut W, trace: &Trace, duration: u64) -> io::Result<()> {
    write!(out, "<path class=\"loss\" d=\"")?;
    for column in trace.columns().iter() {
        if column.lost > 0 {
            let x = right(begin_of(trace, column), duration);
            write!(out, "M{x} 0V{HEIGHT}")?;
        }
    }
    write!(out, "\"/>")
}

fn write_column<W: Write>(
    out: &mut W,
    trace: &Trace,
    column: &Column,
    shown: Shown,
    scale: Scale,
    duration: u64,
) -> io::Result<()> {
    let range = match shown {
        Shown::Lead => column.lead,
        Shown::Distance => column.distance,
    };
    let Some(Range { least, greatest }) = range else {
        return Ok(());
    };
    let x = right(begin_of(trace, column), duration);
    let top = down(scale, greatest);
    let bottom = down(scale, least);
    write!(out, "M{x} {top}V{bottom}")
}
