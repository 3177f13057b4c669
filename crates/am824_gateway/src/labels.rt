//! The labels of AM824 (IEC 61883-6).

ghost use Rattle.std.specs.Prelude.{◌≡◌, ◌+◌, ◌≤◌, ◌++◌, length, take, drop};
ghost use Rattle.am824_gateway.specs.Labels.{are_linear as are_linear_by, labelled, turned, unlabelled};
ghost use Rattle.am824_gateway.specs.declared.scan.To.TheVariants.{Aaf, Am824};
ghost use Rattle.am824_gateway.specs.state.Turning.{CanTurn};

use crate::scan::To;

/// The label of linear audio of 24 bits.
pub(crate) const LINEAR: u8 = 0x40;

/// Whether each quadlet is linear audio of 24 bits. All quadlets are tested, even after one fails, because usually no
/// quadlet fails.
pub(crate) fn are_linear(quadlets: &[u8]) -> bool
    ensures { result ≡ are_linear_by quadlets.now }
{
    let mut linear = true;
    for k in 0..quadlets.len() / 4 {
        linear = linear && quadlets[4 * k] == LINEAR;
    }
    linear
}

/// Writes bytes at an offset. The number of bytes is known at compile time, so the bytes are copied without a call.
#[inline(always)]
pub(crate) fn put_bytes<const N: usize>(out: &mut [u8], offset: usize, bytes: &[u8; N])
    requires { offset + N ≤ length out.old }
    ensures { out.new ≡ take offset out.old ++ (bytes.now ++ drop (offset + N) out.old) }
{
    let (_, behind) = out.split_at_mut(offset);
    let Some(place) = behind.first_chunk_mut() else {
        unreachable!()
    };
    *place = *bytes;
}

/// Writes `n` values of 24 bits as quadlets, each with its label before the value.
fn add_labels(out: &mut [u8], n: usize, values: &[u8])
    requires { CanTurn Am824 n values.now out.old }
    ensures { out.new ≡ labelled n values.now }
{
    for k in 0..n {
        let value = &values[3 * k..3 * k + 3];
        put_bytes(out, 4 * k, &[LINEAR, value[0], value[1], value[2]]);
    }
}

/// Writes `n` quadlets as values of 24 bits, each without its label.
fn take_labels(out: &mut [u8], n: usize, quadlets: &[u8])
    requires { CanTurn Aaf n quadlets.now out.old }
    ensures { out.new ≡ unlabelled n quadlets.now }
{
    for k in 0..n {
        let value = &quadlets[4 * k + 1..4 * k + 4];
        put_bytes(out, 3 * k, &[value[0], value[1], value[2]]);
    }
}

/// Writes `n` values of 24 bits in the format `to`: with labels in AM824, without labels in PCM.
pub(crate) fn turn_values(to: To, out: &mut [u8], n: usize, values: &[u8])
    requires { CanTurn to n values.now out.old }
    ensures { out.new ≡ turned to n values.now }
{
    match to {
        To::Am824 => add_labels(out, n, values),
        To::Aaf => take_labels(out, n, values),
    }
}
