//! The lines of `show`: one for each record of a capture, and one at the end of the capture. The records are numbered
//! from 1, and an arrival is in nanoseconds.

ghost use Rattle.std.specs.Prelude.{◌≡◌, ◌+◌, ◌/◌, ◌≤◌, ◌++◌, length, codes, decimal};
ghost use Rattle.avtp_text.specs.Show.{frame_start, frame_line, end_frames_line, refused_content, ethertype_content, other_content, format_text, header_text, aaf_content, iec_content, part_text, nal_type as type_of_nal, h264_content, crf_content};
ghost use Rattle.aaf_format.specs.Aaf.{aaf_shape};
ghost use Rattle.iec61883_format.specs.Iec.{iec_shape};
ghost use Rattle.cvf_format.specs.Cvf.{cvf_shape};
ghost use Rattle.crf_format.specs.Crf.{crf_shape, point_at};
ghost use Rattle.pcap_frames.specs.Frame.{frame_shape};
ghost use Rattle.avtp_text.specs.state.Lines.{Prepends};
ghost use Rattle.avtp_text.specs.Written.{Prints};

use crate::buffer::{Text, make_room};
use crate::line::{LONGEST, Line};
use aaf_format::{AafFormat, AafView};
use avtp_base::{Failed, Refusal};
use avtp_files::Sink;
use avtp_header::StreamHeader;
use crf_format::{CrfView, point};
use cvf_format::{CvfView, NalPart};
use iec61883_format::IecView;
use pcap_frames::FrameView;

/// Prepends the number and the arrival of a record to its line.
#[tactic(auto, unfolding(crate::specs::Show::frame_start))]
#[inline(always)]
pub fn prepend_frame(line: &mut Line, number: u64, arrival: i64)
    requires { 52 + length line.old ≤ LONGEST }
    ensures { line.new ≡ frame_start number arrival ++ line.old }
{
    line.prepend(" ");
    line.prepend_i64(" at ", arrival);
    line.prepend_u64("frame ", number);
}

/// The name of a sample format.
pub fn format_name(format: AafFormat) -> &'static str
    ensures { result.now ≡ format_text format }
{
    match format {
        AafFormat::Float32 => "float32",
        AafFormat::Int32 => "int32",
        AafFormat::Int24 => "int24",
        AafFormat::Int16 => "int16",
    }
}

/// Prepends the stream header of an AAF, IEC 61883 or CVF packet to the line.
#[tactic(auto, unfolding(crate::specs::Show::header_text))]
#[inline(always)]
fn prepend_header(line: &mut Line, header: &StreamHeader)
    requires { 63 + length line.old ≤ LONGEST }
    ensures { Prepends line.old line.new (header_text header.now) 63 }
{
    line.prepend_flag(" mr ", header.mr);
    line.prepend_flag(" tu ", header.tu);
    line.prepend_flag(" tv ", header.tv);
    line.prepend_u32(" ts ", header.timestamp);
    line.prepend_u32(" seq ", header.seq as u32);
    line.prepend_id("id ", header.stream_id);
}

fn part_name(part: NalPart) -> &'static str
    ensures { result.now ≡ part_text part }
{
    match part {
        NalPart::Single => "single",
        NalPart::First => "first",
        NalPart::Middle => "middle",
        NalPart::Last => "last",
    }
}

impl Text {
    /// Prints which field of a frame or of its packet was refused, and the field's offset from the start of the frame.
    #[tactic(auto, unfolding(crate::specs::Show::refused_content))]
    pub fn frame_refused<S: Sink>(
        &mut self,
        out: &mut S,
        number: u64,
        arrival: i64,
        refusal: Refusal,
    ) -> Result<(), Failed>
        ensures { Prints (S.state out.old) (S.state out.new) self.old self.new result (frame_line number arrival (refused_content refusal)) }
    {
        let mut line = Line::new();
        line.prepend_refusal(refusal);
        line.prepend("refused ");
        prepend_frame(&mut line, number, arrival);
        self.print(out, line.as_slice())
    }

    /// Prints the EtherType of a frame that is not AVTP, and the length of its payload.
    #[tactic(auto, unfolding(crate::specs::Show::ethertype_content))]
    pub fn frame_ethertype<S: Sink>(
        &mut self,
        out: &mut S,
        number: u64,
        arrival: i64,
        frame: &FrameView<'_>,
    ) -> Result<(), Failed>
        ensures { Prints (S.state out.old) (S.state out.new) self.old self.new result (frame_line number arrival (ethertype_content (frame_shape frame.now))) }
    {
        let mut line = Line::new();
        line.prepend_u64(" bytes ", frame.payload.len() as u64);
        line.prepend_u32("ethertype ", frame.ethertype as u32);
        prepend_frame(&mut line, number, arrival);
        self.print(out, line.as_slice())
    }

    /// Prints the AVTP subtype of a packet whose format is not supported.
    #[tactic(auto, unfolding(crate::specs::Show::other_content))]
    pub fn frame_other<S: Sink>(
        &mut self,
        out: &mut S,
        number: u64,
        arrival: i64,
        subtype: u8,
    ) -> Result<(), Failed>
        ensures { Prints (S.state out.old) (S.state out.new) self.old self.new result (frame_line number arrival (other_content subtype)) }
    {
        let mut line = Line::new();
        line.prepend_u32("other ", subtype as u32);
        prepend_frame(&mut line, number, arrival);
        self.print(out, line.as_slice())
    }

    /// Prints the fields of an AAF packet. The rate is in Hz. A user-specified rate is printed as 0.
    pub fn frame_aaf<S: Sink>(
        &mut self,
        out: &mut S,
        number: u64,
        arrival: i64,
        view: &AafView<'_>,
    ) -> Result<(), Failed>
        ensures { Prints (S.state out.old) (S.state out.new) self.old self.new result (frame_line number arrival (aaf_content (aaf_shape view.now))) }
    {
        make_room(&mut self.buffer, out, LONGEST)?;
        self.aaf.write(number, arrival, view);
        self.buffer.push(self.aaf.as_slice());
        Ok(())
    }

    /// Prints the fields of an IEC 61883-6 packet.
    pub fn frame_iec<S: Sink>(
        &mut self,
        out: &mut S,
        number: u64,
        arrival: i64,
        view: &IecView<'_>,
    ) -> Result<(), Failed>
        ensures { Prints (S.state out.old) (S.state out.new) self.old self.new result (frame_line number arrival (iec_content (iec_shape view.now))) }
    {
        let mut line = Line::new();
        line.prepend_u32(" bytes ", view.header.data_length as u32);
        line.prepend_u32(" count ", view.count);
        line.prepend_u32(" fdf ", view.cip.fdf as u32);
        line.prepend_u32(" dbc ", view.cip.dbc as u32);
        line.prepend_u32(" dbs ", view.cip.dbs as u32);
        prepend_header(&mut line, &view.header);
        line.prepend("iec ");
        prepend_frame(&mut line, number, arrival);
        self.print(out, line.as_slice())
    }

    /// Prints the fields of an H.264 packet.
    #[tactic(auto, using(crate::proofs::Names::part_fits))]
    pub fn frame_h264<S: Sink>(
        &mut self,
        out: &mut S,
        number: u64,
        arrival: i64,
        view: &CvfView<'_>,
    ) -> Result<(), Failed>
        ensures { Prints (S.state out.old) (S.state out.new) self.old self.new result (frame_line number arrival (h264_content (cvf_shape view.now))) }
    {
        let mut line = Line::new();
        line.prepend_u32(" bytes ", view.header.data_length as u32);
        line.prepend(part_name(view.part));
        line.prepend(" part ");
        line.prepend_u32(" nal ", (view.nal % 32) as u32);
        line.prepend_flag(" marker ", view.marker);
        line.prepend_u32(" pt ", view.h264_timestamp);
        line.prepend_flag(" ptv ", view.ptv);
        prepend_header(&mut line, &view.header);
        line.prepend("h264 ");
        prepend_frame(&mut line, number, arrival);
        self.print(out, line.as_slice())
    }

    /// Prints the fields of a CRF packet, which has at least one timestamp.
    pub fn frame_crf<S: Sink>(
        &mut self,
        out: &mut S,
        number: u64,
        arrival: i64,
        view: &CrfView<'_>,
    ) -> Result<(), Failed>
        requires { 8 ≤ length view.now.payload.now }
        ensures { Prints (S.state out.old) (S.state out.new) self.old self.new result (frame_line number arrival (crf_content (crf_shape view.now))) }
    {
        let mut line = Line::new();
        line.prepend_u64(" first ", point(view, 0));
        line.prepend_u64(" points ", (view.payload.len() / 8) as u64);
        line.prepend_u32(" interval ", view.interval as u32);
        line.prepend_u32(" pull ", view.pull as u32);
        line.prepend_u32(" base ", view.base_frequency);
        line.prepend_u32(" type ", view.kind as u32);
        line.prepend_flag(" tu ", view.tu);
        line.prepend_flag(" mr ", view.mr);
        line.prepend_u32(" seq ", view.seq as u32);
        line.prepend_id("crf id ", view.stream_id);
        prepend_frame(&mut line, number, arrival);
        self.print(out, line.as_slice())
    }

    /// Prints that a capture ended after `frames` records.
    #[tactic(auto, unfolding(crate::specs::Show::end_frames_line))]
    pub fn end_frames<S: Sink>(&mut self, out: &mut S, frames: u64) -> Result<(), Failed>
        ensures { Prints (S.state out.old) (S.state out.new) self.old self.new result (end_frames_line frames) }
    {
        let mut line = Line::new();
        line.prepend_u64("end frames ", frames);
        self.print(out, line.as_slice())
    }
}
