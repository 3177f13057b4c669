//! One record of a capture, as `show` prints it.

ghost use Rattle.std.specs.Prelude.{◌^◌, ◌<◌};
ghost use Rattle.avtp_text.specs.Show.{frame_line};
ghost use Rattle.avtp_text.specs.Written.{Prints};
ghost use Rattle.avtp_tool.specs.Record.{record_content, packet_content};

use avtp_base::Failed;
use avtp_files::Sink;
use avtp_header::ETHERTYPE;
use avtp_packet::{Packet, read_packet};
use avtp_text::Text;
use pcap_frames::{FrameView, RecordView, read_frame};
use run_report::in_frame;

/// Prints the line of a record: its number in the capture, its arrival and what it holds. Records are counted from 1.
#[tactic(auto, unfolding(crate::specs::Record::record_content, crate::specs::Record::frame_content))]
pub fn print_record<S: Sink>(
    text: &mut Text,
    out: &mut S,
    number: u64,
    held: &RecordView<'_>,
) -> Result<(), Failed>
    ensures { Prints (S.state out.old) (S.state out.new) text.old text.new result (frame_line number held.now.arrival (record_content held.now.bytes.now)) }
{
    match read_frame(held.bytes) {
        Err(refusal) => text.frame_refused(out, number, held.arrival, refusal),
        Ok(frame) if frame.ethertype != ETHERTYPE => text.frame_ethertype(
            out,
            number,
            held.arrival,
            &frame,
        ),
        Ok(frame) => print_packet(text, out, number, held.arrival, &frame),
    }
}

/// Prints the AVTP packet in a frame, or why it is refused.
#[tactic(auto, unfolding(crate::specs::Record::packet_content))]
fn print_packet<S: Sink>(
    text: &mut Text,
    out: &mut S,
    number: u64,
    arrival: i64,
    frame: &FrameView<'_>,
) -> Result<(), Failed>
    requires { frame.now.start < 2 ^ 32 }
    ensures { Prints (S.state out.old) (S.state out.new) text.old text.new result (frame_line number arrival (packet_content frame.now.start frame.now.payload.now)) }
{
    match read_packet(frame.payload) {
        Err(refusal) => text.frame_refused(out, number, arrival, in_frame(frame, refusal)),
        Ok(Packet::Iec(view)) => text.frame_iec(out, number, arrival, &view),
        Ok(Packet::Aaf(view)) => text.frame_aaf(out, number, arrival, &view),
        Ok(Packet::H264(view)) => text.frame_h264(out, number, arrival, &view),
        Ok(Packet::Crf(view)) => text.frame_crf(out, number, arrival, &view),
        Ok(Packet::Other(subtype)) => text.frame_other(out, number, arrival, subtype),
    }
}
