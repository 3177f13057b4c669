//! All fields that can be refused, in captures, frames and packets.

ghost use Rattle.std.specs.Prelude.{◌≡◌};
ghost use Rattle.avtp_base.specs.Field.{name_of};

/// A field that can be refused, named as its standard names it.
#[derive(Clone, Copy, Debug, PartialEq, Eq, Hash)]
pub enum Field {
    // Fields of the file header of a pcap capture.
    Magic,
    VersionMajor,
    VersionMinor,
    Thiszone,
    Sigfigs,
    Snaplen,
    Network,

    // Fields of the header of a pcap record, and the record's bytes.
    TsSec,
    TsFraction,
    InclLen,
    OrigLen,
    PacketBytes,

    // Fields of an Ethernet frame (IEEE 802.3, and IEEE 802.1Q for the tag).
    Destination,
    Source,
    Ethertype,
    TagControl,

    // Fields of the common stream header of AVTP (IEEE 1722-2016, 4.4.4).
    Subtype,
    Version,
    SequenceNum,
    Tu,
    StreamId,
    AvtpTimestamp,
    FormatData,
    StreamDataLength,
    FormatFlags,

    // Fields of AAF PCM (IEEE 1722-2016, 7).
    Format,
    Nsr,
    ChannelsPerFrame,
    BitDepth,

    // Fields of IEC 61883 encapsulation (IEEE 1722-2016, 5) and of its CIP header (IEC 61883-1).
    Tag,
    Qi1,
    FnBits,
    Qpc,
    Sph,
    Qi2,
    Fmt,
    Fdf,

    // Fields of CVF H.264 (IEEE 1722-2016, 8, and RFC 6184).
    CvfFormat,
    FormatSubtype,
    NalType,
    FuHeader,

    // Fields of CRF (IEEE 1722-2016, 10).
    CrfType,
    Pull,
    BaseFrequency,
    CrfDataLength,
    TimestampInterval,

    // Fields of the blocks of a pcapng file.
    BlockType,
    BlockLength,
    BlockTrailer,
    BlockBody,
    ByteOrderMagic,
    SectionVersion,
    Interfaces,
    LinkType,
    InterfaceId,
    TimestampRange,
    CapturedLength,
    OptionLength,
    IfTsresol,
    IfTsoffset,
}

impl Field {
    /// The name of the field as it is printed: the standard's name in lower case.
    pub fn name(self) -> &'static str
        ensures { result.now ≡ name_of self }
    {
        match self {
            Field::Magic => "magic",
            Field::VersionMajor => "version_major",
            Field::VersionMinor => "version_minor",
            Field::Thiszone => "thiszone",
            Field::Sigfigs => "sigfigs",
            Field::Snaplen => "snaplen",
            Field::Network => "network",
            Field::TsSec => "ts_sec",
            Field::TsFraction => "ts_fraction",
            Field::InclLen => "incl_len",
            Field::OrigLen => "orig_len",
            Field::PacketBytes => "packet_bytes",
            Field::Destination => "destination",
            Field::Source => "source",
            Field::Ethertype => "ethertype",
            Field::TagControl => "tag_control",
            Field::Subtype => "subtype",
            Field::Version => "version",
            Field::SequenceNum => "sequence_num",
            Field::Tu => "tu",
            Field::StreamId => "stream_id",
            Field::AvtpTimestamp => "avtp_timestamp",
            Field::FormatData => "format_data",
            Field::StreamDataLength => "stream_data_length",
            Field::FormatFlags => "format_flags",
            Field::Format => "format",
            Field::Nsr => "nsr",
            Field::ChannelsPerFrame => "channels_per_frame",
            Field::BitDepth => "bit_depth",
            Field::Tag => "tag",
            Field::Qi1 => "qi_1",
            Field::FnBits => "fn",
            Field::Qpc => "qpc",
            Field::Sph => "sph",
            Field::Qi2 => "qi_2",
            Field::Fmt => "fmt",
            Field::Fdf => "fdf",
            Field::CvfFormat => "cvf_format",
            Field::FormatSubtype => "format_subtype",
            Field::NalType => "nal_type",
            Field::FuHeader => "fu_header",
            Field::CrfType => "crf_type",
            Field::Pull => "pull",
            Field::BaseFrequency => "base_frequency",
            Field::CrfDataLength => "crf_data_length",
            Field::TimestampInterval => "timestamp_interval",
            Field::BlockType => "block_type",
            Field::BlockLength => "block_length",
            Field::BlockTrailer => "block_trailer",
            Field::BlockBody => "block_body",
            Field::ByteOrderMagic => "byte_order_magic",
            Field::SectionVersion => "section_version",
            Field::Interfaces => "interfaces",
            Field::LinkType => "link_type",
            Field::InterfaceId => "interface_id",
            Field::TimestampRange => "timestamp_range",
            Field::CapturedLength => "captured_length",
            Field::OptionLength => "option_length",
            Field::IfTsresol => "if_tsresol",
            Field::IfTsoffset => "if_tsoffset",
        }
    }
}
