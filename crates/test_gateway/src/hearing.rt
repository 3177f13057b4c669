//! The samples that a listener presents.

use crate::captures::Recorded;
use crate::turning::heard;
use avtp_base::NoMemory;
use sample_schedule::{Batch, Shown};
use std::alloc::Global;
use std::test::Fail;

/// A sample: when it is presented, and its values without labels.
#[derive(Debug, Drop, PartialEq)]
pub struct Heard {
    pub instant: i64,
    pub values: Vec<u8>,
}

fn without_labels(alloc: Global, quadlets: &[u8]) -> Result<Vec<u8>, NoMemory> {
    let mut values = Vec::new(alloc);
    for quadlet in quadlets.chunks(4) {
        values.extend_from_slice(quadlet.get(1..).unwrap_or(&[]))?;
    }
    Ok(values)
}

/// Adds the samples of a batch. `labels` says whether the values have labels.
fn add_samples(
    alloc: Global,
    samples: &mut Vec<Heard>,
    batch: &Batch,
    labels: bool,
) -> Result<(), NoMemory> {
    let bytes = batch.bytes.as_slice();
    let size = bytes.len() / (batch.count.max(1) as usize);
    for j in 0..batch.count {
        let from = size.saturating_mul(j as usize);
        let part = bytes.get(from..from.saturating_add(size)).unwrap_or(&[]);
        let values = if labels {
            without_labels(alloc, part)?
        } else {
            Vec::from_slice(alloc, part)?
        };
        samples.push(Heard {
            instant: batch.instant(j),
            values,
        })?;
    }
    Ok(())
}

/// The samples that a listener presents from records. `labels` says whether the values in the records have labels.
pub fn samples_of(
    alloc: Global,
    records: &[Recorded],
    labels: bool,
    look: u32,
) -> Result<Vec<Heard>, Fail> {
    let heard = heard(alloc, records, look)?;
    let mut samples = Vec::new(alloc);
    for shown in heard.shown.as_slice() {
        if let Shown::Present(batch) = shown {
            add_samples(alloc, &mut samples, batch, labels)?;
        }
    }
    Ok(samples)
}

/// The instants and counts of the batches that a listener presents, as in `1002000000*6 1002125000*6`.
pub fn batches_text(alloc: Global, records: &[Recorded]) -> Result<String, Fail> {
    let heard = heard(alloc, records, 0)?;
    let mut text = String::new(alloc);
    for shown in heard.shown.as_slice() {
        if let Shown::Present(batch) = shown {
            let (instant, count) = (batch.instant(0), batch.count);
            text.push_str(if text.is_empty() { "" } else { " " })?;
            text.push_str(&format!(in alloc; "{instant}*{count}")?)?;
        }
    }
    Ok(text)
}
