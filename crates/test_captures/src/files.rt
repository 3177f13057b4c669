//! Tests of files and sinks, in memory and on disk.

ghost use Rattle.std.specs.Prelude.{◌≤◌, length};

use crate::reading::{Way, shelf_over};
use avtp_base::{Buffer, Spelled};
use avtp_files::{FileShelf, FileSink, Shelf, Sink, StdSink};
use avtp_memory::{MemorySink, QuietShelf, QuietSink};
use capture_io::{FileWriter, read_contents};
use std::alloc::Global;
use std::test::Fail;
use std::{fs, io};
use vectors_avtp::check_rows;

/// A value that is encoded as its own bytes.
#[derive(Drop)]
struct Piece<'a>(&'a [u8]);

impl Spelled for Piece<'_> {
    ghost spelling = { λ piece. piece.0.now };

    fn size(&self) -> usize {
        self.0.len()
    }

    fn write(&self, out: &mut [u8]) {
        out.copy_from_slice(self.0);
    }
}

/// Makes a file, writes the piece to it twice, and returns whether the file has both copies.
fn write_twice<F: Shelf>(
    alloc: Global,
    shelf: &mut F,
    name: &str,
    piece: &[u8],
) -> Result<bool, Fail>
    requires { length piece.now ≤ 65536 }
{
    let Ok(mut writer) = FileWriter::create(Buffer::new(alloc)?, shelf, name) else {
        return Err(Fail::from("the file cannot be made"));
    };
    if writer.add(shelf, &Piece(piece)).is_err() {
        writer.abandon(shelf);
        return Ok(false);
    }
    if writer.add(shelf, &Piece(piece)).is_err() {
        writer.abandon(shelf);
        return Ok(false);
    }
    Ok(writer.finish(shelf).is_ok())
}

/// What is read of a file, up to a limit, and how the reading stops; or why the file cannot be opened.
fn read<F: Shelf>(alloc: Global, shelf: &mut F, limit: u64, name: &str) -> Result<String, Fail> {
    let text = match read_contents(alloc, limit, shelf, name) {
        Ok(contents) => {
            let text = str::from_utf8(contents.bytes.as_slice()).unwrap_or("no text");
            format!(in alloc; "{text} {:?}", contents.stop)?
        }
        Err(fault) => format!(in alloc; "{fault:?}")?,
    };
    Ok(text)
}

/// What each write of a word returns.
fn written<S: Sink>(alloc: Global, sink: &mut S, words: &str) -> Result<String, Fail> {
    let mut text = String::new(alloc);
    for word in words.split_whitespace() {
        if !word.is_empty() {
            let result = sink.write(word.as_bytes());
            text.push_str(format!(in alloc; "{result:?} ")?.as_str())?;
        }
    }
    Ok(text)
}

/// The call that fails, whether both writes of 40,000 bytes succeed, and how many bytes the file has. The shelf takes at
/// most 30,000 bytes per call.
const WRITES: &str = "\
0 => true Some(80000)
2 => false Some(0)
3 => false Some(30000)
5 => false Some(70000)";

/// What becomes of both writes, if this call fails.
fn written_with(alloc: Global, fails: &str) -> Result<String, Fail> {
    let way = Way {
        most: 30_000,
        limit: 0,
        fails: fails.parse()?,
    };
    let mut shelf = shelf_over(alloc, &[], way)?;
    let whole = write_twice(alloc, &mut shelf, "b", &[7; 40_000])?;
    let size = match shelf.file("b") {
        Some(bytes) => Some(bytes.len()),
        None => None,
    };
    Ok(format!(in alloc; "{whole} {size:?}")?)
}

#[test]
fn a_file_has_what_was_written_before_a_call_fails(rt: HostRuntime) -> Result<(), Fail> {
    let alloc = rt.alloc();
    check_rows(WRITES, |fails| written_with(alloc, fails))
}

/// The limit, the call that fails, what is then read of the file `a`, and why the file `b` cannot be opened.
const READS: &str = "\
5 0 => abcde End, Missing
4 0 => abcd Limit, Missing
5 3 => abc Fault, Missing";

/// What is read of both files, with the limit and the call that fails of a row.
fn read_both(alloc: Global, row: &str) -> Result<String, Fail> {
    let (limit, fails) = row.split_once(' ').ok_or("a row without a call")?;
    let way = Way {
        most: 3,
        limit: 0,
        fails: fails.parse()?,
    };
    let mut shelf = shelf_over(alloc, b"abcde", way)?;
    let a = read(alloc, &mut shelf, limit.parse()?, "a")?;
    let b = read(alloc, &mut shelf, 5, "b")?;
    Ok(format!(in alloc; "{a}, {b}")?)
}

#[test]
fn a_file_is_read_whole_or_to_a_limit_or_to_a_fault(rt: HostRuntime) -> Result<(), Fail> {
    let alloc = rt.alloc();
    check_rows(READS, |row| read_both(alloc, row))
}

#[test]
fn a_sink_in_memory_keeps_what_its_calls_took(rt: HostRuntime) -> Result<(), Fail> {
    let mut sink = MemorySink::over(rt.alloc(), vec![in rt.alloc(); 2u64]?).at_most(3);
    let mut found = written(rt.alloc(), &mut sink, "abcd d ef")?;
    found.push_str(str::from_utf8(sink.bytes()).unwrap_or("no text"))?;
    assert!(rt;
        found.as_str() == "Ok(3) Err(Failed) Ok(2) abcef",
        "{found}"
    );
    Ok(())
}

#[test]
fn a_quiet_sink_takes_all_and_keeps_what_fits(rt: HostRuntime) -> Result<(), Fail> {
    let mut sink = QuietSink::over(rt.alloc(), 5)?;
    let mut found = written(rt.alloc(), &mut sink, "abc defg")?;
    found.push_str(str::from_utf8(sink.bytes()).unwrap_or("no text"))?;
    assert!(rt; found.as_str() == "Ok(3) Ok(4) abcde", "{found}");
    Ok(())
}

/// Writes the piece twice to the file `name`, and then reads the file `other`.
fn read_after_writes<F: Shelf>(
    alloc: Global,
    shelf: &mut F,
    name: &str,
    piece: &[u8],
    other: &str,
) -> Result<String, Fail>
    requires { length piece.now ≤ 65536 }
{
    let whole = write_twice(alloc, shelf, name, piece)?;
    let kept = read(alloc, shelf, 9, other)?;
    Ok(format!(in alloc; "{whole}, {kept}")?)
}

/// After a write that did not fit, the shelf returns `Memory`, not `Missing`, for the name of a missing file.
#[test]
fn a_quiet_shelf_takes_all_and_keeps_what_fits(rt: HostRuntime) -> Result<(), Fail> {
    let mut shelf = QuietShelf::over(rt.alloc(), Vec::new(rt.alloc()), 3);
    let before = read(rt.alloc(), &mut shelf, 9, "b")?;
    assert!(rt; before.as_str() == "Missing", "{before}");
    let after = read_after_writes(rt.alloc(), &mut shelf, "a", b"xy", "b")?;
    assert!(rt; after.as_str() == "true, Memory", "{after}");
    let kept = str::from_utf8(shelf.file("a").unwrap_or(&[])).unwrap_or("no text");
    assert!(rt; kept == "xyx", "{kept}");
    Ok(())
}

/// Writes a file twice and reads it, removes it, and reads it again.
#[test]
fn a_real_file_is_made_and_read_back(rt: HostRuntime) -> Result<(), Fail> {
    let path = "/tmp/test_captures_shelf";
    let mut shelf = FileShelf::new(rt.alloc(), &rt);
    let found = read_after_writes(rt.alloc(), &mut shelf, path, b"abc", path)?;
    assert!(rt; found.as_str() == "true, abcabc End", "{found}");
    fs::remove_file(&rt, path)?;
    let gone = read(rt.alloc(), &mut shelf, 9, path)?;
    assert!(rt; gone.as_str() == "Failed", "{gone}");
    Ok(())
}

/// What a sink over the file at `path` returns for each word that is written to it. The sink never writes to a file at
/// one of the paths in `apart`.
fn written_to(rt: HostRuntime, path: &str, apart: &str, words: &str) -> Result<String, Fail> {
    let mut others = Vec::new(rt.alloc());
    for other in apart.split_whitespace() {
        others.push(String::from_str(rt.alloc(), other)?)?;
    }
    let mut sink = FileSink::named(rt, String::from_str(rt.alloc(), path)?, others);
    written(rt.alloc(), &mut sink, words)
}

/// A file that was read is not overwritten by a shelf or by a sink, under any of its paths.
#[test]
fn a_file_that_is_read_is_not_written_over(rt: HostRuntime) -> Result<(), Fail> {
    let (path, other) = ("/tmp/test_captures_kept", "/tmp/./test_captures_kept");
    let mut shelf = FileShelf::new(rt.alloc(), &rt);
    let before = read_after_writes(rt.alloc(), &mut shelf, path, b"abc", path)?;
    assert!(rt; before.as_str() == "true, abcabc End", "{before}");
    let made = shelf.create_file(other).err();
    let put = written_to(rt, other, "/ /tmp/test_captures_kept", "d")?;
    let after = read(rt.alloc(), &mut shelf, 9, path)?;
    fs::remove_file(&rt, path)?;
    let found = format!(in rt.alloc(); "{made:?}, {put}, {after}")?;
    assert!(rt;
        found.as_str() == "Some(Failed), Err(Failed) , abcabc End",
        "{found}"
    );
    Ok(())
}

/// The first write to a sink makes the sink's file. If the file exists already, the first write empties the file.
#[test]
fn a_sink_makes_its_file_when_it_is_written_to(rt: HostRuntime) -> Result<(), Fail> {
    let path = "/tmp/test_captures_sink";
    let first = written_to(rt, path, "", "abc de")?;
    let second = written_to(rt, path, "", "f ghi")?;
    let mut shelf = FileShelf::new(rt.alloc(), &rt);
    let kept = read(rt.alloc(), &mut shelf, 9, path)?;
    fs::remove_file(&rt, path)?;
    let none = written_to(rt, path, "", "")?;
    let gone = read(rt.alloc(), &mut shelf, 9, path)?;
    let folder = written_to(rt, "/", "", "a")?;
    let printed = StdSink::new(io::writer(&rt)).write(b"\n");
    let found = format!(in rt.alloc(); "{first}{second}{kept}, {none}{gone}, {folder}{printed:?}")?;
    let wanted = "Ok(3) Ok(2) Ok(1) Ok(3) fghi End, Failed, Err(Failed) Ok(1)";
    assert!(rt; found.as_str() == wanted, "{found}");
    Ok(())
}
