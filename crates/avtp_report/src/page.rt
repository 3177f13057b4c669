//! The page: verdicts first, then each stream with its pictures, and the table.

use crate::Told;
use crate::cells::{HEADINGS, cells_of};
use crate::chart::{Shown, write_chart};
use crate::gather::MOST_STREAMS;
use crate::named::{InWords, kind_of};
use crate::reading::{Ending, Reading};
use crate::said::Said;
use crate::style::STYLE;
use crate::units::{Address, Escaped, Grouped, Packets, Span};
use std::alloc::Global;
use std::io::{self, Write};
use stream_report::{Stream, Verdict};

/// Writes the page. A browser needs no other file to show the page.
pub fn write_page<W: Write>(alloc: Global, out: &mut W, told: &Told<'_>) -> io::Result<()> {
    write_head(out, told)?;
    write_summary(out, told)?;
    write_streams(out, told)?;
    write_others(out, told.reading)?;
    write_rows(alloc, out, told)?;
    write_columns(out)?;
    writeln!(out, "</body></html>")
}

fn write_head<W: Write>(out: &mut W, told: &Told<'_>) -> io::Result<()> {
    let reading = told.reading;
    writeln!(
        out,
        "<!DOCTYPE html>\n<html lang=\"en\"><head><meta charset=\"utf-8\">"
    )?;
    writeln!(
        out,
        "<meta name=\"viewport\" content=\"width=device-width, initial-scale=1\">"
    )?;
    writeln!(
        out,
        "<title>AVTP report</title><style>{STYLE}</style></head><body>"
    )?;
    writeln!(out, "<h1>AVTP report</h1>")?;
    for file in reading.files.iter() {
        let name = Escaped(file.name.as_str());
        let frames = Grouped(file.frames);
        write!(
            out,
            "<p class=\"faint\"><code>{name}</code>: {frames} frames"
        )?;
        match file.ending {
            Ending::Whole => {}
            Ending::Refused(refusal) => {
                let field = refusal.field.name();
                let at = refusal.at;
                write!(
                    out,
                    ", read up to byte {at}, where {field} cannot be accepted"
                )?;
            }
            Ending::Fault => write!(out, ", and then it could not be read")?,
        }
        writeln!(out, "</p>")?;
    }
    let duration = Span(reading.report.duration);
    let streams = reading.report.streams.len();
    let noun = if streams == 1 { "stream" } else { "streams" };
    let sick = told.sick();
    writeln!(
        out,
        "<p>{streams} {noun} in {duration}, {sick} with a verdict.</p>"
    )
}

/// Writes all verdicts, the worst streams first.
fn write_summary<W: Write>(out: &mut W, told: &Told<'_>) -> io::Result<()> {
    writeln!(out, "<h2>Verdicts</h2>")?;
    if told.sick() == 0 {
        return writeln!(
            out,
            "<p class=\"good\">Nothing is wrong with any stream.</p>"
        );
    }
    writeln!(out, "<ul class=\"verdicts\">")?;
    for place in told.order.iter() {
        if let (Some(stream), Some(verdicts)) = (
            told.reading.report.streams.get(*place),
            told.verdicts.get(*place),
        ) {
            if !verdicts.is_empty() {
                write!(out, "<li><a href=\"#s{place}\">")?;
                write_name(out, stream)?;
                writeln!(out, "</a>")?;
                write_verdicts(out, stream, verdicts, told.reading)?;
                writeln!(out, "</li>")?;
            }
        }
    }
    writeln!(out, "</ul>")
}

fn write_name<W: Write>(out: &mut W, stream: &Stream) -> io::Result<()> {
    let kind = kind_of(stream);
    let id = stream.key.id;
    write!(out, "{kind} <code>{id:016x}</code>")
}

fn write_verdicts<W: Write>(
    out: &mut W,
    stream: &Stream,
    verdicts: &[Verdict],
    reading: &Reading,
) -> io::Result<()> {
    let many_files = reading.files.len() > 1;
    writeln!(out, "<ul>")?;
    for verdict in verdicts.iter() {
        let said = Said {
            verdict: *verdict,
            fields: stream.fields.as_slice(),
            many_files,
        };
        writeln!(out, "<li>{said}</li>")?;
    }
    writeln!(out, "</ul>")
}

fn write_streams<W: Write>(out: &mut W, told: &Told<'_>) -> io::Result<()> {
    writeln!(out, "<h2>Streams</h2>")?;
    writeln!(
        out,
        "<p class=\"key faint\"><span style=\"background:var(--lead)\"></span>lead: timestamp minus arrival<span style=\"background:var(--gap)\"></span>arrival distance: from one packet to the next<span style=\"background:var(--loss)\"></span>packets lost. All pictures have the same time from left to right; a line reaches from the least to the greatest value of its moment, and what is off the scale is drawn at its edge.</p>"
    )?;
    for place in told.order.iter() {
        if let (Some(stream), Some(verdicts)) = (
            told.reading.report.streams.get(*place),
            told.verdicts.get(*place),
        ) {
            write_stream(out, *place, stream, verdicts, told.reading)?;
        }
    }
    Ok(())
}

/// If there are more streams than this, the pictures of streams without a verdict are folded.
const MOST_UNFOLDED: usize = 16;

fn write_stream<W: Write>(
    out: &mut W,
    place: usize,
    stream: &Stream,
    verdicts: &[Verdict],
    reading: &Reading,
) -> io::Result<()> {
    write!(out, "<section class=\"stream\" id=\"s{place}\"><h3>")?;
    write_name(out, stream)?;
    write_facts(out, stream)?;
    if verdicts.is_empty() {
        writeln!(out, "<p class=\"good\">Nothing is wrong with it.</p>")?;
    } else {
        writeln!(out, "<div class=\"bad\">")?;
        write_verdicts(out, stream, verdicts, reading)?;
        writeln!(out, "</div>")?;
    }
    let folded = verdicts.is_empty() && reading.report.streams.len() > MOST_UNFOLDED;
    write_pictures(out, stream, folded, reading.report.duration)?;
    writeln!(out, "</section>")
}

/// Ends a stream's heading, and writes what is sent in the stream.
fn write_facts<W: Write>(out: &mut W, stream: &Stream) -> io::Result<()> {
    let words = InWords(stream.format, stream.count);
    let packets = Packets(stream.packets);
    let source = Address(stream.sender.source);
    writeln!(
        out,
        "</h3><p class=\"faint\">{words}. {packets} from {source}.</p>"
    )
}

fn write_pictures<W: Write>(
    out: &mut W,
    stream: &Stream,
    folded: bool,
    duration: u64,
) -> io::Result<()> {
    if folded {
        writeln!(out, "<details><summary>Pictures</summary>")?;
    }
    write_chart(out, stream, Shown::Lead, duration)?;
    write_chart(out, stream, Shown::Distance, duration)?;
    if folded {
        writeln!(out, "</details>")?;
    }
    Ok(())
}

fn write_rows<W: Write>(alloc: Global, out: &mut W, told: &Told<'_>) -> io::Result<()> {
    write!(
        out,
        "<h2>All numbers</h2>\n<div class=\"scroll\"><table><thead><tr>"
    )?;
    for heading in HEADINGS.iter() {
        let name = heading.name;
        let meaning = heading.meaning;
        write!(out, "<th title=\"{meaning}\">{name}</th>")?;
    }
    writeln!(out, "</tr></thead><tbody>")?;
    for place in told.order.iter() {
        if let Some(stream) = told.reading.report.streams.get(*place) {
            write_row(out, &cells_of(alloc, stream)?)?;
        }
    }
    writeln!(out, "</tbody></table></div>")
}

fn write_row<W: Write>(out: &mut W, cells: &[String]) -> io::Result<()> {
    write!(out, "<tr>")?;
    for (heading, cell) in HEADINGS.iter().zip(cells.iter()) {
        let name = heading.name;
        write!(out, "<td data-name=\"{name}\">{cell}</td>")?;
    }
    writeln!(out, "</tr>")
}

fn write_others<W: Write>(out: &mut W, reading: &Reading) -> io::Result<()> {
    let others = &reading.report.others;
    writeln!(out, "<h2>What else was seen</h2>")?;
    if others.counts.is_empty() {
        return writeln!(out, "<p>Nothing.</p>");
    }
    writeln!(out, "<dl>")?;
    for seen in others.counts.iter() {
        let other = seen.other;
        let count = Grouped(seen.count);
        writeln!(out, "<dt>{other}</dt><dd>{count}</dd>")?;
    }
    if others.further > 0 {
        let count = Grouped(others.further);
        writeln!(out, "<dt>of further kinds</dt><dd>{count}</dd>")?;
    }
    writeln!(out, "</dl>")
}

/// Writes what each column of the table means.
fn write_columns<W: Write>(out: &mut W) -> io::Result<()> {
    writeln!(out, "<details><summary>What the columns hold</summary><dl>")?;
    for heading in HEADINGS.iter() {
        let name = heading.name;
        let meaning = heading.meaning;
        writeln!(out, "<dt>{name}</dt><dd>{meaning}</dd>")?;
    }
    writeln!(out, "</dl></details>")?;
    writeln!(
        out,
        "<p class=\"faint\">Timestamps have 32 bits, so a lead is known modulo 4.29 s, and stands between -2.15 and 2.15 s; a media clock's is known whole. Percentiles are exact to 1.6 %. At most 191 packets lost in a row are counted, and at most {MOST_STREAMS} streams.</p>"
    )
}
