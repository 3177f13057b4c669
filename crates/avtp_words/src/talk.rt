//! The command `talk`: which input to make into a capture, and how.

ghost use Rattle.std.specs.Prelude.{◌≡◌, ℕ, ◌*◌, ◌≤◌, ◌^◌, ◌↔◌, ◌∷◌, pos, codes, IsTrue, IsSomeAnd, Some, nat_eq};
ghost use Rattle.std.specs.List.{list_any};
ghost use Rattle.std.specs.Option.{option_eq};
ghost use Rattle.aaf_format.specs.Aaf.{rate_of as rate_of_code};
ghost use Rattle.iec61883_format.specs.Iec.{rate_of_fdf as rate_of_fdf_code, syt_interval as interval_of_code};
ghost use Rattle.avtp_words.specs.Grammar.{FitsBlocks, FitsKind, FitsSamples, FitsOptions, KeepsRules, Lacks, SaysTalk, lacking, talking_of};
ghost use Rattle.avtp_words.specs.state.Answers.{Asks, Reads, ReadsTalk};
ghost use Rattle.avtp_words.specs.state.Reading.{ClockIsWithin, IsReadKind, IsReadOf, suits as suits_of};
ghost use Rattle.avtp_words.specs.Limits.{default_rate as default_rate_of, start as start_limits};
ghost use Rattle.option_words.specs.Word.{texts};

use crate::command::{Command, Offence};
use crate::crf::{Crf, crf_after, fits_clock};
use crate::limits::{
    AAF_LACKS, AM824_LACKS, AUDIO_RATE_DEFAULT, CHANNELS, CHANNELS_DEFAULT, CLOCK_OPTIONS, COUNT,
    COUNT_DEFAULT, CRF, FORMAT, FORMAT_DEFAULT, H264_LACKS, ID, ID_DEFAULT, JUMP, JUMP_DEFAULT,
    KIND, LAST_STAMP, LEAD_DEFAULT, MAX_BLOCKS, MAX_QUADLETS, MAX_SAMPLES, MAX_VIDEO_RATE, RATE,
    RESTART, RESTART_OPTIONS, SPARSE, START, START_DEFAULT, TALK_LEAD, TALK_OPTIONS,
    VIDEO_RATE_DEFAULT,
};
use crate::operand::operands_at;
use crate::rule::{have_needed, lacks};
use aaf_format::{AafFormat, rate_of, width_of};
use iec61883_format::{rate_of_fdf, syt_interval};
use option_words::{
    Operand, contains, format_after, id_after, number_after, short_number_after,
    small_number_after, small_number_if, word_after, word_at,
};

/// The kind of a stream.
#[derive(Clone, Copy, Debug, PartialEq, Eq)]
pub enum Kind {
    /// PCM in the AVTP audio format (IEEE 1722-2016, 7). The samples in the input and in the packets are in `format`.
    /// In a sparse stream, only one packet in eight has a timestamp.
    Aaf { format: AafFormat, sparse: bool },
    /// AM824 (IEC 61883-6). The input is quadlets as they are sent.
    Am824,
    /// H.264 (IEEE 1722-2016, 8; RFC 6184). The input is a byte stream of NAL units. If `last_stamp` is true, only the
    /// last packet of each unit has a timestamp. If `last_stamp` is false, each packet has a timestamp.
    H264 { last_stamp: bool },
}

/// The input that is made into a capture, and how the packets are sent.
#[derive(Clone, Copy, Debug, PartialEq, Eq)]
pub struct Talk<'a> {
    /// The kind of the stream.
    pub kind: Kind,
    /// The sample rate in Hz. The format must have a code for this rate. For H.264, the number of access units per
    /// second, 1 to 240.
    pub rate: u32,
    /// The number of channels of each sample frame: 1 to 1023, for AM824 at most 256. H.264 does not use `channels` and
    /// `count`.
    pub channels: u16,
    /// The number of sample frames in a packet, at least 1. The sample frames of a packet take at most 1,476 bytes. For
    /// AM824, the number of data blocks in a packet, at least an eighth of SYT_INTERVAL. The data blocks of a packet
    /// take at most 1,468 bytes.
    pub count: u32,
    /// The stream ID.
    pub id: u64,
    /// When the first packet is sent, in nanoseconds of gPTP, 0 to 4,000,000,000,000,000,000.
    pub start: i64,
    /// The max transit time in nanoseconds, 1 to 1,000,000,000. A packet is sent this long before its first
    /// presentation time.
    pub lead: u32,
    /// The number of packets from one media clock restart to the next, 8 to 1,000,000,000. `None` if there are no
    /// restarts.
    pub restart: Option<u32>,
    /// How far each restart sets presentation times forward, in nanoseconds, 4 to 1,000,000,000.
    pub jump: u32,
    /// The media clock that is sent with the stream, if one is asked for.
    pub crf: Option<Crf>,
    /// The name of the input, which holds raw samples or an H.264 byte stream.
    pub input: &'a str,
    /// The name of the capture to write.
    pub output: &'a str,
}

const TALK_OPERANDS: [Operand; 2] = [Operand::Name, Operand::Name];

/// The codes of AAF that name a nominal sample rate.
const RATE_CODES: [u8; 10] = [1, 2, 3, 4, 5, 6, 7, 8, 9, 10];

/// Reads the words after `talk`. If a word is missing, the offence is one past the last word. If each word is valid but
/// the words contradict one another, the offence is at the command. For H.264, a rate above 240 access units a second
/// counts as a contradiction, because `--kind` can follow `--rate`.
pub fn read_talk(words: &[String]) -> Result<Command<'_>, Offence>
    ensures { Reads Asks (codes "talk" ∷ texts words.now) result }
{
    let asked = read_words(words)?;
    if asked.keeps_rules(words) {
        Ok(Command::Talk(asked))
    } else {
        Err(Offence { position: 1 })
    }
}

/// What the words after `talk` ask for. Rules over several words are not checked.
fn read_words(words: &[String]) -> Result<Talk<'_>, Offence>
    ensures { Reads (λ line asked. SaysTalk line (talking_of asked)) (codes "talk" ∷ texts words.now) result }
{
    let place = operands_at(&TALK_OPTIONS, &TALK_OPERANDS, words)?;
    let Some(input) = word_at(words, place) else {
        unreachable!()
    };
    let Some(output) = word_at(words, place + 1) else {
        unreachable!()
    };
    let sparse = contains(words, SPARSE.name);
    let last_stamp = contains(words, LAST_STAMP.name);
    let kind = kind_after(&words[..place], sparse, last_stamp);
    Ok(read_options(&words[..place], kind, input, output))
}

fn read_options<'a>(options: &[String], kind: Kind, input: &'a str, output: &'a str) -> Talk<'a>
    ensures { ReadsTalk (texts options.now) kind input.now output.now result }
{
    let rate = small_number_after(options, RATE.name, kind.default_rate());
    Talk {
        kind,
        rate,
        channels: short_number_after(options, CHANNELS.name, CHANNELS_DEFAULT),
        count: small_number_after(options, COUNT.name, COUNT_DEFAULT),
        id: id_after(options, ID.name, ID_DEFAULT),
        start: start_after(options),
        lead: small_number_after(options, TALK_LEAD.name, LEAD_DEFAULT),
        restart: small_number_if(options, RESTART.name),
        jump: small_number_after(options, JUMP.name, JUMP_DEFAULT),
        crf: crf_after(options, rate),
        input,
        output,
    }
}

/// The kind of the stream. Only AAF uses `sparse`, and only H.264 uses `last_stamp`.
fn kind_after(options: &[String], sparse: bool, last_stamp: bool) -> Kind
    ensures { IsReadKind (texts options.now) sparse last_stamp result }
{
    match word_after(options, KIND.name) {
        Some("am824") => Kind::Am824,
        Some("h264") => Kind::H264 { last_stamp },
        _ => Kind::Aaf {
            format: format_after(options, FORMAT.name, FORMAT_DEFAULT),
            sparse,
        },
    }
}

/// When the first packet is sent, in nanoseconds of gPTP.
fn start_after(options: &[String]) -> i64
    ensures { (n : ℕ) × (result ≡ pos n) × IsReadOf (2 ^ 63) start_limits (texts options.now) n }
{
    let start = number_after(options, START.name, START_DEFAULT);
    i64::try_from(start).unwrap_or(START_DEFAULT as i64)
}

impl<'a> Talk<'a> {
    /// Whether `words`, the words after `talk`, keep the rules over several words. `self` is what these words ask for.
    fn keeps_rules(&self, words: &[String]) -> bool
        requires { ClockIsWithin self.now.crf self.now.rate }
        ensures { IsTrue result ↔ KeepsRules (texts words.now) (talking_of self.now) }
    {
        self.input != self.output
            && self.fits_kind()
            && fits_clock(self.crf, self.rate, self.count, self.restart)
            && self.kind.fits_options(words)
    }

    /// Whether the rate, the channels and the count fit the kind of the stream.
    fn fits_kind(&self) -> bool
        ensures { IsTrue result ↔ FitsKind self.now.kind (talking_of self.now) }
    {
        match self.kind {
            Kind::Aaf { format, sparse: _ } => self.fits_samples(format),
            Kind::Am824 => self.fits_blocks(),
            Kind::H264 { .. } => self.rate <= MAX_VIDEO_RATE,
        }
    }

    fn fits_samples(&self, format: AafFormat) -> bool
        ensures { IsTrue result ↔ FitsSamples format (talking_of self.now) }
    {
        let frame = u64::from(self.channels) * u64::from(width_of(format));
        is_nominal(self.rate) && u64::from(self.count) * frame <= MAX_SAMPLES
    }

    fn fits_blocks(&self) -> bool
        ensures { IsTrue result ↔ FitsBlocks (talking_of self.now) }
    {
        let block = 4 * u64::from(self.channels);
        suits_blocks(self.rate, self.count)
            && self.channels <= MAX_QUADLETS
            && u64::from(self.count) * block <= MAX_BLOCKS
    }
}

impl Kind {
    /// The rate if `--rate` is not given: in Hz, or for H.264 in access units per second.
    fn default_rate(self) -> u32
        ensures { result ≡ default_rate_of self }
    {
        match self {
            Kind::Aaf { .. } | Kind::Am824 => AUDIO_RATE_DEFAULT,
            Kind::H264 { .. } => VIDEO_RATE_DEFAULT,
        }
    }

    /// Whether the kind allows each option in `words`, and `words` contain every option that another option in `words`
    /// needs.
    fn fits_options(self, words: &[String]) -> bool
        ensures { IsTrue result ↔ FitsOptions self (texts words.now) }
    {
        self.has_options(words)
            && have_needed(words, RESTART.name, &RESTART_OPTIONS)
            && have_needed(words, CRF.name, &CLOCK_OPTIONS)
    }

    /// Whether the kind allows each option in `words`, the words after `talk`.
    fn has_options(self, words: &[String]) -> bool
        ensures { IsTrue result ↔ Lacks (texts words.now) (lacking self) }
    {
        match self {
            Kind::Aaf { .. } => lacks(words, &AAF_LACKS),
            Kind::Am824 => lacks(words, &AM824_LACKS),
            Kind::H264 { .. } => lacks(words, &H264_LACKS),
        }
    }
}

/// Whether a sample rate is one of the nominal rates of AAF.
fn is_nominal(rate: u32) -> bool
    ensures { IsTrue result ↔ ((code : ℕ) × (rate_of_code code ≡ Some rate)) }
{
    has_rate(&RATE_CODES, rate)
}

/// Whether one of `codes` names the sample rate.
fn has_rate(codes: &[u8], rate: u32) -> bool
    ensures { result ≡ list_any (λ code. option_eq nat_eq (rate_of_code code) (Some rate)) codes.now }
{
    codes.iter().any(|code| rate_of(*code) == Some(rate))
}

/// The codes FDF that name a sample rate (IEC 61883-6).
const FDF_CODES: [u8; 7] = [0, 1, 2, 3, 4, 5, 6];

/// Whether IEC 61883-6 has a code for the sample rate, and `count` is at least an eighth of that rate's SYT_INTERVAL.
/// Any eight packets in a row, each with `count` data blocks, then contain a timestamped block.
fn suits_blocks(rate: u32, count: u32) -> bool
    ensures { IsTrue result ↔ ((fdf : ℕ) × (rate_of_fdf_code fdf ≡ Some rate) × IsSomeAnd (interval_of_code fdf) (λ interval. interval ≤ 8 * count)) }
{
    has_suiting(&FDF_CODES, rate, count)
}

/// Whether one of `codes` names the sample rate and has an SYT_INTERVAL of at most 8 times `count`.
fn has_suiting(codes: &[u8], rate: u32, count: u32) -> bool
    ensures { result ≡ list_any (λ fdf. suits_of rate count fdf) codes.now }
{
    codes.iter().any(|fdf| suits(*fdf, rate, count))
}

fn suits(fdf: u8, rate: u32, count: u32) -> bool
    ensures { result ≡ suits_of rate count fdf }
{
    match syt_interval(fdf) {
        Some(interval) => {
            rate_of_fdf(fdf) == Some(rate) && u64::from(interval) <= 8 * u64::from(count)
        }
        None => false,
    }
}
