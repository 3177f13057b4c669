//! The table on standard output.

use crate::Told;
use crate::cells::{COLUMNS, HEADINGS, cells_of};
use crate::named::kind_of;
use crate::said::Said;
use crate::units::Grouped;
use std::alloc::Global;
use std::io::{self, Write};

/// The rows of the table, and the widths of its columns.
#[derive(Drop)]
struct Rows {
    rows: Vec<Vec<String>>,
    widths: Vec<usize>,
}

/// Writes a row for each stream, the verdicts on each stream, and what else was seen.
pub fn write_table<W: Write>(alloc: Global, out: &mut W, told: &Told<'_>) -> io::Result<()> {
    let rows = rows_of(alloc, told)?;
    if !rows.rows.is_empty() {
        write_headings(out, &rows.widths)?;
        for row in rows.rows.iter() {
            write_row(out, &rows.widths, row)?;
        }
        writeln!(out, "")?;
    }
    write_verdicts(out, told)?;
    write_others(out, told)?;
    write_total(out, told)
}

fn rows_of(alloc: Global, told: &Told<'_>) -> io::Result<Rows> {
    let mut rows = Vec::new(alloc);
    let mut widths = Vec::new(alloc);
    for heading in HEADINGS.iter() {
        widths.push(heading.name.len())?;
    }
    for place in told.order.iter() {
        if let Some(stream) = told.reading.report.streams.get(*place) {
            let row = cells_of(alloc, stream)?;
            widen(&mut widths, &row);
            rows.push(row)?;
        }
    }
    Ok(Rows { rows, widths })
}

/// Makes each column as wide as its cell in this row.
fn widen(widths: &mut [usize], row: &[String]) {
    for (width, cell) in widths.iter_mut().zip(row.iter()) {
        *width = (*width).max(cell.len());
    }
}

fn write_headings<W: Write>(out: &mut W, widths: &[usize]) -> io::Result<()> {
    for (place, (heading, width)) in HEADINGS.iter().zip(widths.iter()).enumerate() {
        write_cell(out, place, heading.name, *width)?;
    }
    writeln!(out, "")
}

fn write_row<W: Write>(out: &mut W, widths: &[usize], row: &[String]) -> io::Result<()> {
    for (place, (cell, width)) in row.iter().zip(widths.iter()).enumerate() {
        write_cell(out, place, cell.as_str(), *width)?;
    }
    writeln!(out, "")
}

/// Writes a cell. The first four columns and the last column hold words, which begin at the left. The other columns
/// hold numbers, which end at the right.
fn write_cell<W: Write>(out: &mut W, place: usize, text: &str, width: usize) -> io::Result<()> {
    if place > 0 {
        write!(out, "  ")?;
    }
    if place >= COLUMNS - 1 {
        return write!(out, "{text}");
    }
    let spaces = width.saturating_sub(text.len());
    if place < 4 {
        write!(out, "{text}")?;
    }
    for _ in 0..spaces {
        write!(out, " ")?;
    }
    if place < 4 {
        Ok(())
    } else {
        write!(out, "{text}")
    }
}

fn write_verdicts<W: Write>(out: &mut W, told: &Told<'_>) -> io::Result<()> {
    let many_files = told.reading.files.len() > 1;
    for place in told.order.iter() {
        let (Some(stream), Some(verdicts)) = (
            told.reading.report.streams.get(*place),
            told.verdicts.get(*place),
        ) else {
            continue;
        };
        let kind = kind_of(stream);
        let id = stream.key.id;
        for verdict in verdicts.iter() {
            let said = Said {
                verdict: *verdict,
                fields: stream.fields.as_slice(),
                many_files,
            };
            writeln!(out, "{kind} {id:016x}: {said}")?;
        }
    }
    Ok(())
}

/// Writes what else was seen, by name and number.
fn write_others<W: Write>(out: &mut W, told: &Told<'_>) -> io::Result<()> {
    let others = &told.reading.report.others;
    for seen in others.counts.iter() {
        let other = seen.other;
        let count = Grouped(seen.count);
        writeln!(out, "seen: {other}: {count}")?;
    }
    if others.further > 0 {
        let count = Grouped(others.further);
        writeln!(out, "seen: of further kinds: {count}")?;
    }
    Ok(())
}

fn write_total<W: Write>(out: &mut W, told: &Told<'_>) -> io::Result<()> {
    let frames = told.reading.report.frames;
    let streams = told.reading.report.streams.len();
    let mut verdicts: usize = 0;
    for of in told.verdicts.iter() {
        verdicts = verdicts.saturating_add(of.len());
    }
    writeln!(
        out,
        "end frames {frames} streams {streams} verdicts {verdicts}"
    )
}
