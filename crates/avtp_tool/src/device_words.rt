//! The devices that the words ask for.

ghost use Rattle.std.specs.Prelude.{◌≡◌, slice_get, IfSome};
ghost use Rattle.avtp_words.specs.Grammar.{IsCommandLine, listen as listen_request, Listening, listening_of};
ghost use Rattle.option_words.specs.Word.{texts};
ghost use Rattle.avtp_tool.specs.DeviceWords.{devices_of, silence_as};

use avtp_words::{Command, Listen, parse};
use device_rack::Silence;

/// A device. `word` is the index, counted from 0, of the word that gives the name of the device's file. With this index
/// the device can be made without parsing the words again.
#[derive(Clone, Copy, Debug, PartialEq, Eq)]
pub enum DeviceWord {
    /// Raw audio. `silence` says what is written for missing packets.
    Raw { word: usize, silence: Silence },
    /// H.264 NAL units as a byte stream.
    AnnexB { word: usize },
}

/// Device `n`, counted from 0, of the devices that the words ask for. The device for raw audio precedes the device for
/// a byte stream.
///
/// The result is `None` if and only if one of two things holds: the words are not a command line of `listen`, or the
/// words ask for at most `n` devices.
pub fn device_word(words: &[String], n: u32) -> Option<DeviceWord>
    ensures found { (asked : Listening) → IsCommandLine (texts words.now) (listen_request asked) → result ≡ slice_get (devices_of asked) n }
    ensures only { IfSome result (λ device. (asked : Listening) × IsCommandLine (texts words.now) (listen_request asked)) }
{
    let Ok(command) = parse(words) else {
        return None;
    };
    match command {
        Command::Listen(asked) => device_of(&asked, n),
        _ => None,
    }
}

/// Device `n`, counted from 0, of the devices that are asked for.
fn device_of(asked: &Listen<'_>, n: u32) -> Option<DeviceWord>
    ensures { result ≡ slice_get (devices_of (listening_of asked.now)) n }
{
    let annexb = asked
        .annexb
        .map(|file| DeviceWord::AnnexB { word: file.place });
    match (asked.raw, n) {
        (Some(raw), 0) => Some(DeviceWord::Raw {
            word: raw.file.place,
            silence: raw_silence(raw.silence),
        }),
        (Some(_), 1) | (None, 0) => annexb,
        _ => None,
    }
}

/// The silence that the words ask for, in the type of the raw device.
pub fn raw_silence(asked: avtp_words::Silence) -> Silence
    ensures { result ≡ silence_as asked }
{
    match asked {
        avtp_words::Silence::Zero => Silence::Zero,
        avtp_words::Silence::Am824 => Silence::Am824,
    }
}
