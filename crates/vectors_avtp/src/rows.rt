//! Bytes and refusals, as they are written in the rows of tables.

use crate::vectors::vector;
use avtp_base::Refusal;
use std::alloc::{AllocError, Global};
use std::test::Fail;

/// The offset of the frame in the first vector. `PACKET` is the offset of the frame's packet in the first vector.
const FRAME: usize = 40;

const PACKET: usize = 58;

/// The bytes that a row gives. Each word adds to the bytes of the words before it, or changes them:
///
/// - `pcap`, `pcapng`, `iec`, `h264` and `crf` add a vector; `frame` and `aaf` add the frame and the packet of the first vector.
/// - Hexadecimal digits add the bytes that they denote.
/// - `17=53ff` overwrites the bytes from offset 17 on with 53 and ff.
/// - `len=47` cuts the bytes to this length, or adds zeros up to it.
pub fn bytes_of(alloc: Global, row: &str) -> Result<Vec<u8>, Fail> {
    let mut bytes = Vec::new(alloc);
    for word in row.split_whitespace() {
        match word.split_once('=') {
            Some(("len", len)) => bytes.resize(len.parse()?, 0)?,
            Some((at, digits)) => put(&mut bytes, at.parse()?, &hex::decode(alloc, digits)?)?,
            None => bytes.extend_from_slice(&bytes_of_word(alloc, word)?)?,
        }
    }
    Ok(bytes)
}

fn bytes_of_word(alloc: Global, word: &str) -> Result<Vec<u8>, Fail> {
    Ok(match word {
        "pcap" => vector(alloc, 1)?,
        "frame" => vector(alloc, 1)?.get(FRAME..).unwrap_or(&[]).to_vec(alloc)?,
        "aaf" => vector(alloc, 1)?
            .get(PACKET..)
            .unwrap_or(&[])
            .to_vec(alloc)?,
        "iec" => vector(alloc, 2)?,
        "h264" => vector(alloc, 3)?,
        "crf" => vector(alloc, 4)?,
        "pcapng" => vector(alloc, 5)?,
        digits => hex::decode(alloc, digits)?,
    })
}

fn put(bytes: &mut Vec<u8>, at: usize, new: &[u8]) -> Result<(), Fail> {
    for (k, byte) in new.iter().enumerate() {
        let place = bytes.get_mut(at.saturating_add(k));
        *place.ok_or("a row changes a byte that it does not have")? = *byte;
    }
    Ok(())
}

/// The two sides of a table's line, `bytes => expected`.
pub fn row_of(line: &str) -> Result<(&str, &str), Fail> {
    let (row, wanted) = line.split_once("=>").ok_or("a line without a row")?;
    Ok((row.trim(), wanted.trim()))
}

/// Checks each line of a table: what `found_of` finds for its left side must be the text of its right side. A line that
/// begins with `//` is a comment.
pub fn check_rows<F: Fn(&str) -> Result<String, Fail>>(rows: &str, found_of: F) -> Result<(), Fail>
    requires { F.IsAlwaysCallable found_of }
{
    for line in rows.lines() {
        if !line.starts_with("//") {
            let (row, wanted) = row_of(line)?;
            let found = found_of(row)?;
            if found.trim() != wanted {
                return Err(Fail::new(format_args!("found {found}, in {line}")));
            }
        }
    }
    Ok(())
}

/// The results for bytes that are cut off: each length at which the result changes, and the new result.
pub fn told_when_cut<F: Fn(&[u8]) -> Result<String, Fail>>(
    alloc: Global,
    bytes: &[u8],
    told: F,
) -> Result<String, Fail>
    requires { F.IsAlwaysCallable told }
{
    let mut all = String::new(alloc);
    let mut last = String::new(alloc);
    for len in 0..=bytes.len() {
        let now = told(bytes.get(..len).unwrap_or(&[]))?;
        if now != last {
            all.push_str(format!(in alloc; "{len}: {now}; ")?.as_str())?;
        }
        last = now;
    }
    Ok(all)
}

/// A refusal as rows write it: `stream_data_length at 20`, with ` short` if the field is cut off.
pub fn refusal_text(alloc: Global, refusal: Refusal) -> Result<String, AllocError> {
    let short = if refusal.short { " short" } else { "" };
    format!(in alloc; "{} at {}{short}", refusal.field.name(), refusal.at)
}
