//! Reads the words of each row, and compares the answer with the row.

use crate::rows::{COMMANDS, OFFENCES, RULES, VALUES};
use crate::told::answer;
use std::alloc::{AllocError, Global};
use std::process::Abort;

/// Reads the words of each row. The command, or the position of the offence, must be the one that the row states.
fn assert_rows(rt: &impl Abort, alloc: Global, rows: &str) -> Result<(), AllocError> {
    for row in rows.lines() {
        let (line, stated) = row.split_once("=> ").unwrap_or((row, "no answer"));
        assert_eq!(rt; answer(alloc, line)?.as_str(), stated, "{line}");
    }
    Ok(())
}

#[test]
fn a_command_line_asks_for_what_its_words_say(rt: HostRuntime) -> Result<(), AllocError> {
    assert_rows(&rt, rt.alloc(), COMMANDS)
}

#[test]
fn the_offence_is_the_first_word_that_cannot_stand(rt: HostRuntime) -> Result<(), AllocError> {
    assert_rows(&rt, rt.alloc(), OFFENCES)
}

#[test]
fn a_rule_over_several_words_blames_the_command(rt: HostRuntime) -> Result<(), AllocError> {
    for line in RULES.lines() {
        assert_eq!(rt; answer(rt.alloc(), line)?.as_str(), "1", "{line}");
    }
    Ok(())
}

/// The names that a command needs.
fn names_of(command: &str) -> &'static str {
    match command {
        "listen" => "0200000000010001 c.pcap",
        "talk" => "a b",
        "agree" | "gateway" => "0200000000010001 a b",
        _ => "c.pcap",
    }
}

/// Reads the words of a line, and checks the position of the offence.
fn assert_offence(
    rt: &impl Abort,
    alloc: Global,
    line: &str,
    position: &str,
) -> Result<(), AllocError> {
    assert_eq!(rt; answer(alloc, line)?.as_str(), position, "{line}");
    Ok(())
}

/// Tries an option with each value that the option does not accept. Also tries the option in three more ways: without a
/// value, given twice, and after the names.
fn assert_option(
    rt: &impl Abort,
    alloc: Global,
    command: &str,
    option: &str,
    values: &str,
) -> Result<(), AllocError> {
    let names = names_of(command);
    let (name, _) = option.split_once(' ').unwrap_or((option, ""));
    for value in values.split(' ') {
        let line = format!(in alloc; "{command} {name} {value} {names}")?;
        assert_offence(rt, alloc, &line, "3")?;
    }
    assert_offence(rt, alloc, &format!(in alloc; "{command} {name}")?, "3")?;
    let twice = format!(in alloc; "{command} {option} {option} {names}")?;
    assert_offence(rt, alloc, &twice, "4")?;
    let late = format!(in alloc; "{command} {names} {option}")?;
    let place = match command {
        "show" | "check" => "3",
        "agree" | "gateway" => "5",
        _ => "4",
    };
    assert_offence(rt, alloc, &late, place)
}

#[test]
fn an_option_stands_once_before_the_names_with_a_value_in_its_range(
    rt: HostRuntime,
) -> Result<(), AllocError> {
    for row in VALUES.lines() {
        let (given, values) = row.split_once(" : ").unwrap_or((row, ""));
        let (command, option) = given.split_once(' ').unwrap_or((given, ""));
        assert_option(&rt, rt.alloc(), command, option, values)?;
    }
    Ok(())
}
