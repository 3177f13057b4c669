//! The grammar of what the commands print, and of the status that goes with each text.

use avtp_base::NoMemory;
use std::alloc::Global;

/// The rules. A rule is a word in capital letters and the pattern of this word. A pattern can contain the words of
/// later rules. Each such word stands for the pattern of its rule.
const RULES: [(&str, &str); 27] = [
    ("TEXT", "^(?:SHOW|CHECK|LISTEN|TALK|AGREE|GATEWAY)\n$"),
    (
        "SHOW",
        "show\n(?:frame N at INSTANT RECORD\n)*(?:end frames N\nstatus 0|UNREAD)",
    ),
    (
        "CHECK",
        "check\ncapture in\n(?:finding frame N FINDING\n)*(?:end frames N streams N findings 0\nstatus 0|end frames N streams N findings SOME\nstatus 1|UNREAD)",
    ),
    (
        "LISTEN",
        "listen\ncapture in\n(?:at INSTANT frame N seq N sample N BYTES\n|flag frame N seq N REASON\n)*(?:end frames N packets N presented N flagged N\nstatus 0|UNREAD)",
    ),
    (
        "TALK",
        "talk\n(?:talk packets N clock N\nmade SOME\nstatus 0|talk input: (?:frames|start_code|nal_type|packets)\nstatus 9)",
    ),
    (
        "AGREE",
        "agree\n(?:end matched N only 0 0 differ 0\nstatus 0|BESIDE)",
    ),
    (
        "BESIDE",
        "capture refused: FILE at N(?: short)?\ncapture refused: FILE at N(?: short)?\nstatus 3|limit SOME\nlimit SOME\nstatus 7",
    ),
    (
        "GATEWAY",
        "gateway\n(?:gateway batches N packets N skipped 0\nmade SOME\nstatus 0|(?:SKIP)+gateway batches SOME packets N skipped SOME\nmade SOME\nstatus 1|gateway input: (?:kind|format|rate|channels|label) at frame SOME\nstatus 9|UNREAD)",
    ),
    ("SKIP", "skip frame SOME (?:overlap|range)\n"),
    (
        "RECORD",
        "(?:refused REFUSAL|ethertype N bytes N|other N|AAF|IEC|H264|CRF)",
    ),
    (
        "FINDING",
        "(?:malformed REFUSAL|id ID (?:reserved|streams|stamp|step N|hold N))",
    ),
    (
        "REASON",
        "(?:malformed PACKET|uncertain|empty|norate|untimed|noclock|late|repeat|full|broken|long)",
    ),
    (
        "UNREAD",
        "capture refused: FILE at N(?: short)?\nstatus 3|limit SOME\nstatus 7",
    ),
    (
        "AAF",
        "aaf HEADER sp BIT evt N format (?:int16|int24|int32|float32) rate N channels N depth N count N bytes N",
    ),
    ("IEC", "iec HEADER dbs N dbc N fdf N count N bytes N"),
    (
        "H264",
        "h264 HEADER ptv BIT pt N marker BIT nal N part (?:single|first|middle|last) bytes N",
    ),
    (
        "CRF",
        "crf id ID seq N mr BIT tu BIT type N base N pull N interval N points SOME first N",
    ),
    ("HEADER", "id ID seq N ts N tv BIT tu BIT mr BIT"),
    (
        "REFUSAL",
        "(?:destination|source|ethertype|tag_control|PACKET) at N(?: short)?",
    ),
    (
        "PACKET",
        "(?:subtype|version|sequence_num|tu|stream_id|avtp_timestamp|format_data|stream_data_length|format_flags|format|nsr|channels_per_frame|bit_depth|tag|qi_1|fn|qpc|sph|qi_2|fmt|fdf|cvf_format|format_subtype|nal_type|fu_header|crf_type|pull|base_frequency|crf_data_length|timestamp_interval)",
    ),
    (
        "FILE",
        "(?:magic|version_major|version_minor|thiszone|sigfigs|snaplen|network|ts_sec|ts_fraction|incl_len|orig_len|packet_bytes|block_type|block_length|block_trailer|block_body|byte_order_magic|section_version|interfaces|link_type|interface_id|timestamp_range|captured_length|option_length|if_tsresol|if_tsoffset)",
    ),
    ("BYTES", "(?:[0-9a-f]{2})+"),
    ("INSTANT", "-?N"),
    ("ID", "[0-9a-f]{16}"),
    ("BIT", "[01]"),
    ("SOME", "[1-9][0-9]*"),
    ("N", "(?:0|[1-9][0-9]*)"),
];

/// The pattern of all that any command prints.
pub fn pattern(alloc: Global) -> Result<String, NoMemory> {
    let mut pattern = String::from_str(alloc, "TEXT")?;
    for (word, meaning) in &RULES {
        pattern = pattern.replace(alloc, *word, meaning)?;
    }
    Ok(pattern)
}
