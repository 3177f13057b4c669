//! The samples of the stream.

ghost use Rattle.std.specs.Prelude.{◌≡◌, ◌≤◌, ◌++◌, IfOk, OnOk};
ghost use Rattle.soak_run.specs.Captured.{sample_frame, soak_input as soak_input_of};

use crate::deliveries::SOAK_PLAN;
use avtp_base::NoMemory;
use std::alloc::Global;

/// Appends sample frame `number`: two samples of 16 bits, one that rises with `number` and one that falls with it.
fn put_sample_frame(samples: &mut Vec<u8>, number: u32) -> Result<(), NoMemory>
    ensures { OnOk result (samples.new.items ≡ samples.old.items ++ sample_frame number) }
{
    let rising = (number % 65_536) as u16;
    samples.extend_from_slice(&rising.to_be_bytes())?;
    samples.extend_from_slice(&(u16::MAX - rising).to_be_bytes())?;
    Ok(())
}

/// The samples of this many packets.
#[tactic(auto, unfolding(crate::specs::Captured::soak_input))]
pub(crate) fn soak_input(alloc: Global, packets: u32) -> Result<Vec<u8>, NoMemory>
    requires { packets ≤ 1000000 }
    ensures { IfOk result (λ input. input.items ≡ soak_input_of packets) }
{
    let mut samples = Vec::new(alloc);
    for number in 0..SOAK_PLAN.count * packets {
        put_sample_frame(&mut samples, number)?;
    }
    Ok(samples)
}
