//! How two batches differ.

ghost use Rattle.std.specs.Prelude.{◌≡◌, ◌<◌, ◌≤◌, ◌*◌, ◌+◌};
ghost use Rattle.listener_pair.specs.Differences.{between as between_of, difference_by};
ghost use Rattle.listener_pair.specs.Ways.{first_way, sample_bytes as sample_bytes_of, sample_size as sample_size_of, sample_way as sample_way_of, way_of as way};

use crate::difference::{Difference, Way, Which};
use crate::timed::Timed;
use sample_schedule::Batch;

/// The bytes of a sample of a batch.
fn sample_bytes(batch: &Batch, j: u32) -> &[u8]
    requires { j < batch.now.count }
    ensures { result.now ≡ sample_bytes_of batch.now j }
{
    let bytes = batch.bytes.as_slice();
    let size = bytes.len() / batch.count as usize;
    let start = j as usize * size;
    &bytes[start..start + size]
}

/// How sample `j` differs between a batch of A and a batch of B; `None` if it does not differ.
#[tactic(auto, unfolding(crate::specs::Ways::sample_way))]
fn sample_way(a: &Batch, b: &Batch, j: u32) -> Option<Way>
    requires a { j < a.now.count }
    requires b { j < b.now.count }
    ensures { result ≡ sample_way_of a.now b.now j }
{
    let at_a = a.instant(j);
    let at_b = b.instant(j);
    if at_a != at_b {
        return Some(Way::At {
            sample: j,
            a: at_a,
            b: at_b,
        });
    }
    if sample_bytes(a, j) != sample_bytes(b, j) {
        return Some(Way::Bytes { sample: j });
    }
    None
}

/// The way in which the first differing sample differs; `None` if no sample differs.
fn first_of_samples(a: &Batch, b: &Batch) -> Option<Way>
    requires { b.now.count ≡ a.now.count }
    ensures { result ≡ first_way a.now b.now a.now.count }
{
    for j in 0..a.count {
        let way = sample_way(a, b, j);
        if way.is_some() {
            return way;
        }
    }
    None
}

/// How a batch of A and a batch of B differ; `None` if they do not differ. Batches with the same line and equal bytes
/// are not compared sample by sample.
#[tactic(auto, unfolding(crate::specs::Ways::way_of))]
pub fn way_of(a: &Batch, b: &Batch) -> Option<Way>
    ensures { result ≡ way a.now b.now }
{
    if a.count != b.count {
        return Some(Way::Count {
            a: a.count,
            b: b.count,
        });
    }
    if a.line == b.line && a.from == b.from && a.bytes.as_slice() == b.bytes.as_slice() {
        return None;
    }
    first_of_samples(a, b)
}

/// The difference of a batch of A and a batch of B; `None` if they do not differ.
fn between(a: &Batch, b: &Batch) -> Option<Difference>
    ensures { result ≡ between_of a.now b.now }
{
    match way_of(a, b) {
        None => None,
        Some(way) => Some(Difference {
            frame_a: a.frame,
            frame_b: b.frame,
            seq: a.seq,
            way,
        }),
    }
}

/// The difference of batch `x` of `side` and its partner `y` on the other side; `None` if they do not differ.
pub fn difference_of(side: Which, x: &Timed, y: &Timed) -> Option<Difference>
    ensures { result ≡ difference_by side x.now y.now }
{
    match side {
        Which::A => between(x.batch(), y.batch()),
        Which::B => between(y.batch(), x.batch()),
    }
}
