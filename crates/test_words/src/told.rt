//! A command as one line of text.

use avtp_words::{
    Agree, Command, Crf, DeviceFile, Gateway, GatewayFormat, Listen, ListenerOptions, Offence,
    Silence, Talk, parse,
};
use std::alloc::{AllocError, Global};
use std::fmt::Display;

/// Reads a word of a row. `_` is a space. Quotes are left out, so `''` is an empty word.
fn word_of(alloc: Global, spelled: &str) -> Result<String, AllocError> {
    let mut word = String::new(alloc);
    for letter in spelled.chars() {
        match letter {
            '_' => word.push(' ')?,
            '\'' => {}
            _ => word.push(letter)?,
        }
    }
    Ok(word)
}

/// What the words of a row ask for, or the position of the offence.
pub fn answer(alloc: Global, line: &str) -> Result<String, AllocError> {
    let mut words = Vec::new(alloc);
    for spelled in line.split_ascii_whitespace() {
        words.push(word_of(alloc, spelled)?)?;
    }
    match parse(&words) {
        Ok(command) => told(alloc, command),
        Err(Offence { position }) => format!(in alloc; "{position}"),
    }
}

/// The command's name, the options that are not at their default, and the names.
fn told(alloc: Global, command: Command<'_>) -> Result<String, AllocError> {
    let mut text = String::new(alloc);
    match command {
        Command::Show { limit, file } => {
            text.push_str("show")?;
            add(&mut text, "limit", limit, LIMIT)?;
            add_name(&mut text, file)?;
        }
        Command::Check { limit, files } => {
            text.push_str("check")?;
            add(&mut text, "limit", limit, LIMIT)?;
            add_names(&mut text, files)?;
        }
        Command::Listen(asked) => add_listen(&mut text, &asked)?,
        Command::Talk(asked) => add_talk(&mut text, &asked)?,
        Command::Soak { packets } => write!(text, "soak {packets}")?,
        Command::Agree(asked) => add_agree(&mut text, &asked)?,
        Command::Gateway(asked) => add_gateway(&mut text, &asked)?,
    }
    Ok(text)
}

const LIMIT: u64 = 1_099_511_627_776;

fn add<T: Display + PartialEq + Copy>(
    text: &mut String,
    option: &str,
    value: T,
    default: T,
) -> Result<(), AllocError> {
    if value == default {
        return Ok(());
    }
    write!(text, " {option} {value}")
}

fn add_id(text: &mut String, option: &str, id: u64) -> Result<(), AllocError> {
    write!(text, " {option} {id:016x}")
}

fn add_name(text: &mut String, name: &str) -> Result<(), AllocError> {
    write!(text, " ({name})")
}

fn add_names(text: &mut String, names: &[String]) -> Result<(), AllocError> {
    for name in names {
        add_name(text, name.as_str())?;
    }
    Ok(())
}

/// Adds the command's name, the stream, and the options of the stream's listener.
fn add_listener(
    text: &mut String,
    command: &str,
    listener: &ListenerOptions,
) -> Result<(), AllocError> {
    write!(text, "{command} {:016x}", listener.stream)?;
    add(text, "limit", listener.limit, LIMIT)?;
    add(text, "buffer", listener.buffer, 4_096)?;
    add(text, "room", listener.room, 67_108_864)?;
    add(text, "look", listener.look, 0)?;
    add(text, "lead", listener.lead, 2_000_000)?;
    if let Some(clock) = listener.clock {
        add_id(text, "clock", clock)?;
    }
    add(text, "shift", listener.shift, 0)
}

fn add_agree(text: &mut String, asked: &Agree<'_>) -> Result<(), AllocError> {
    add_listener(text, "agree", &asked.listener)?;
    add_name(text, asked.a)?;
    add_name(text, asked.b)
}

/// Adds what `gateway` is asked for: the options of its listener, then the format and the stream ID of the output.
fn add_gateway(text: &mut String, asked: &Gateway<'_>) -> Result<(), AllocError> {
    let to = match asked.to {
        GatewayFormat::Am824 => "am824",
        GatewayFormat::Aaf => "aaf",
    };
    add_listener(text, "gateway", &asked.listener)?;
    write!(text, " to {to}")?;
    if asked.id != asked.listener.stream {
        add_id(text, "id", asked.id)?;
    }
    add_name(text, asked.input)?;
    add_name(text, asked.output)
}

fn add_listen(text: &mut String, asked: &Listen<'_>) -> Result<(), AllocError> {
    add_listener(text, "listen", &asked.listener)?;
    add(text, "ring", asked.ring, 64)?;
    add_devices(text, asked)?;
    add_names(text, asked.files)
}

/// Adds the files that are written.
fn add_devices(text: &mut String, asked: &Listen<'_>) -> Result<(), AllocError> {
    if let Some(raw) = asked.raw {
        let option = match raw.silence {
            Silence::Zero => "zero raw",
            Silence::Am824 => "am824 raw",
        };
        add_file(text, option, raw.file)?;
    }
    match asked.annexb {
        Some(file) => add_file(text, "annexb", file),
        None => Ok(()),
    }
}

/// Adds a file that is written, with the position of its name among the words, counted from 0.
fn add_file(text: &mut String, option: &str, file: DeviceFile<'_>) -> Result<(), AllocError> {
    write!(text, " {option} {}", file.place)?;
    add_name(text, file.name)
}

fn add_talk(text: &mut String, asked: &Talk<'_>) -> Result<(), AllocError> {
    write!(text, "talk {:?}", asked.kind)?;
    add(text, "rate", asked.rate, 48_000)?;
    add(text, "channels", asked.channels, 2)?;
    add(text, "count", asked.count, 6)?;
    if asked.id != 0x0200_0000_0001_0001 {
        add_id(text, "id", asked.id)?;
    }
    add(text, "start", asked.start, 1_000_000_000)?;
    add(text, "lead", asked.lead, 2_000_000)?;
    if let Some(restart) = asked.restart {
        write!(text, " restart {restart}")?;
    }
    add(text, "jump", asked.jump, 1_000_000)?;
    if let Some(crf) = asked.crf {
        add_crf(text, &crf, asked.rate)?;
    }
    add_name(text, asked.input)?;
    add_name(text, asked.output)
}

/// Adds the media clock. The clock's default rate is the stream's rate.
fn add_crf(text: &mut String, crf: &Crf, rate: u32) -> Result<(), AllocError> {
    add_id(text, "crf", crf.id)?;
    add(text, "crf-rate", crf.rate, rate)?;
    add(text, "pull", crf.pull, 0)?;
    add(text, "interval", crf.interval, 96)?;
    add(text, "points", crf.points, 1)
}
