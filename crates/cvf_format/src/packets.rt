//! How NAL units are cut into packets.

ghost use Rattle.std.specs.Prelude.{◌≡◌, ◌≤◌};
ghost use Rattle.cvf_format.specs.Packets.{IsCut, packets_of};

/// The length in bytes of the longest NAL unit that is sent whole.
const LONGEST_SINGLE: usize = 1400;

/// The length in bytes of the body of each fragment except the last.
const FULL_BODY: usize = 1398;

/// The number of packets that carry a NAL unit of `len` bytes, where `len` is 1 to 268,435,456. One packet carries a
/// unit of at most 1400 bytes. The bytes after the first byte of a longer unit are cut into fragments (FU-A), 1398
/// bytes in each except the last.
pub fn fragments(len: usize) -> u32
    requires some { 1 ≤ len }
    requires most { len ≤ 268435456 }
    ensures cut { IsCut len result }
    ensures value { result ≡ packets_of len }
{
    if len <= LONGEST_SINGLE {
        return 1;
    }
    (len - 1).div_ceil(FULL_BODY) as u32
}
