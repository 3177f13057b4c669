//! The streams of the captures, and what else the captures hold.

use avtp_base::{Field, NoMemory};
use avtp_header::{ETHERTYPE, peek};
use avtp_packet::{Packet, read_packet, stamp_is_wrong};
use pcap_frames::{FrameView, RecordView, read_frame};
use std::alloc::Global;
use std::collections::HashMap;
use stream_report::{
    At, Came, Facts, Other, Others, Sender, Stream, StreamKey, Trace, aaf_facts, crf_facts,
    h264_facts, iec_facts, other_frame, unread_format,
};

/// The maximum number of streams that are counted separately.
pub const MOST_STREAMS: usize = 1024;

/// The counts of all captures, which are read as if they were one capture.
pub struct Report {
    alloc: Global,
    /// Whether pictures of the streams are wanted.
    pictured: bool,
    places: HashMap<StreamKey, usize>,
    /// The index of the stream of the most recent packet.
    last: usize,
    /// For each stream, the index of its follower. The follower is another stream: the one whose packet most recently
    /// came directly after a packet of this stream. Streams mostly take turns, so the follower is likely to have the
    /// next packet.
    followers: Vec<usize>,
    /// The streams, in the order in which they were first seen.
    pub streams: Vec<Stream>,
    pub others: Others,
    /// The number of frames in all files.
    pub frames: u64,
    /// When the first frame arrived.
    first_arrival: Option<i64>,
    /// The time from the arrival of the first frame to the latest arrival of a frame, in nanoseconds.
    pub duration: u64,
}

// One call for the proofs of all owners, instead of the drops of the parts at each of their ends.
impl Drop for Report {
    fn drop(self) {
        let Report {
            alloc: _,
            pictured: _,
            places: _,
            last: _,
            followers: _,
            streams: _,
            others: _,
            frames: _,
            first_arrival: _,
            duration: _,
        } = self;
    }
}

impl Report {
    pub fn new(alloc: Global, pictured: bool) -> Self {
        Report {
            alloc,
            pictured,
            places: HashMap::new(alloc),
            last: 0,
            followers: Vec::new(alloc),
            streams: Vec::new(alloc),
            others: Others::new(alloc),
            frames: 0,
            first_arrival: None,
            duration: 0,
        }
    }

    /// Counts a record of a capture. After `NoMemory` the report must not be used.
    pub fn note(&mut self, at: At, record: &RecordView<'_>) -> Result<(), NoMemory> {
        self.frames = self.frames.saturating_add(1);
        let begin = self.first_arrival.unwrap_or(record.arrival);
        self.first_arrival = Some(begin);
        let since = record.arrival.wrapping_sub(begin).max(0).cast_unsigned();
        self.duration = self.duration.max(since);
        let came = Came {
            at,
            arrival: record.arrival,
            since,
        };
        match read_frame(record.bytes) {
            Err(refusal) => self.others.note(Other::Malformed(refusal.field)),
            Ok(frame) if frame.ethertype == ETHERTYPE => self.note_frame(&came, &frame),
            Ok(frame) => self.others.note(other_frame(&frame)),
        }
    }

    /// Counts a frame that holds an AVTP packet.
    fn note_frame(&mut self, came: &Came, frame: &FrameView<'_>) -> Result<(), NoMemory> {
        let packet = match read_packet(frame.payload) {
            Ok(packet) => packet,
            Err(refusal) => return self.note_refused(came, frame, refusal.field),
        };
        let mut facts = match &packet {
            Packet::Aaf(view) => aaf_facts(view),
            Packet::Iec(view) => iec_facts(view),
            Packet::H264(view) => h264_facts(view),
            Packet::Crf(view) => crf_facts(view),
            Packet::Other(subtype) => return self.others.note(Other::Subtype(*subtype)),
        };
        facts.stamp_wrong = stamp_is_wrong(&packet);
        self.note_packet(came, frame, &facts)
    }

    fn note_packet(
        &mut self,
        came: &Came,
        frame: &FrameView<'_>,
        facts: &Facts,
    ) -> Result<(), NoMemory> {
        if !facts.sv {
            return self.others.note(Other::NoStream(facts.key.subtype));
        }
        let sender = sender_of(frame);
        match self.stream(facts.key, &sender, came.at)? {
            Some(stream) => stream.note(came, &sender, facts),
            None => self.others.note(Other::Untracked),
        }
    }

    /// Counts a packet that is refused at `field`.
    fn note_refused(
        &mut self,
        came: &Came,
        frame: &FrameView<'_>,
        field: Field,
    ) -> Result<(), NoMemory> {
        let Some(peeked) = peek(frame.payload) else {
            return self.others.note(Other::Malformed(field));
        };
        if let Some(other) = unread_format(peeked.subtype, field, frame.payload) {
            return self.others.note(other);
        }
        if !peeked.sv {
            return self.others.note(Other::Malformed(field));
        }
        let key = StreamKey {
            subtype: peeked.subtype,
            id: peeked.stream_id,
        };
        match self.stream(key, &sender_of(frame), came.at)? {
            Some(stream) => stream.note_malformed(came.at, field),
            None => self.others.note(Other::Untracked),
        }
    }

    /// The stream with this key. If there is no stream with this key yet and fewer than 1,024 streams are tracked, a
    /// stream is added. If there is none and 1,024 streams are tracked already, the result is `None`.
    fn stream(
        &mut self,
        key: StreamKey,
        sender: &Sender,
        at: At,
    ) -> Result<Option<&mut Stream>, NoMemory> {
        let place = match self.expected(key) {
            Some(place) => place,
            None => self.find(key, sender, at)?,
        };
        self.last = place;
        Ok(self.streams.get_mut(place))
    }

    /// Returns the index of the stream with this key, if this stream is one of two: the stream of the most recent
    /// packet, or the follower of that stream.
    fn expected(&self, key: StreamKey) -> Option<usize> {
        if self.is_at(self.last, key) {
            return Some(self.last);
        }
        let follower = self.followers.get(self.last).copied()?;
        self.is_at(follower, key).then_some(follower)
    }

    /// Whether the stream at index `place` has this key.
    fn is_at(&self, place: usize, key: StreamKey) -> bool {
        match self.streams.get(place) {
            Some(stream) => stream.key == key,
            None => false,
        }
    }

    /// Returns the index of the stream with this key. The stream that is found becomes the follower of the most recent
    /// packet's stream. If there is no stream with this key yet, one is added.
    #[inline(never)]
    fn find(&mut self, key: StreamKey, sender: &Sender, at: At) -> Result<usize, NoMemory> {
        let place = match self.places.get(&key).copied() {
            Some(place) => place,
            None => self.begin(key, sender, at)?,
        };
        if let Some(follower) = self.followers.get_mut(self.last) {
            *follower = place;
        }
        Ok(place)
    }

    /// Adds a stream, and returns its index. If 1,024 streams are tracked already, no stream is added, and the index is
    /// past the end of the streams.
    fn begin(&mut self, key: StreamKey, sender: &Sender, at: At) -> Result<usize, NoMemory> {
        let place = self.streams.len();
        if place < MOST_STREAMS {
            let trace = self.pictured.then(|| Trace::new(self.alloc));
            self.streams
                .push(Stream::new(self.alloc, key, *sender, at, trace))?;
            self.places.insert(key, place)?;
            self.followers.push(place)?;
        }
        Ok(place)
    }
}

fn sender_of(frame: &FrameView<'_>) -> Sender {
    Sender {
        source: frame.src,
        destination: frame.dst,
        tag: frame.tag,
    }
}
