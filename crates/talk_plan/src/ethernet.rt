//! The Ethernet frames that carry packets.

ghost use Rattle.std.specs.Prelude.{◌≡◌, length, [], true};
ghost use Rattle.avtp_base.specs.Layout.{spelling};
ghost use Rattle.pcap_frames.specs.Frame.{frame_layout};
ghost use Rattle.talk_plan.specs.Ethernet.{ethernet};

/// The length of the Ethernet header, with its tag.
pub const ETHERNET_HEADER: usize = 18;

/// The Ethernet header of every frame: to 91:e0:f0:00:fe:00, from 02:00:00:00:00:01, tagged with priority 3 and VLAN 2, and
/// with the EtherType of AVTP.
const ETHERNET: [u8; ETHERNET_HEADER] =
    *b"\x91\xe0\xf0\x00\xfe\x00\x02\x00\x00\x00\x00\x01\x81\x00\x60\x02\x22\xf0";

/// Writes the Ethernet header of every frame.
#[inline(always)]
pub fn write_ethernet(out: &mut [u8])
    requires { length out.old ≡ 18 }
    ensures { out.new ≡ spelling (frame_layout true) (ethernet []) }
{
    out.copy_from_slice(&ETHERNET);
}
