//! Bytes that go to a sink.

ghost use Rattle.std.specs.Prelude.{◌++◌, ◌∷◌};
ghost use Rattle.device_rack.specs.RawOutput.{silence_of};
ghost use Rattle.device_rack.specs.state.Written.{HasWritten};

use crate::silent_bytes::Silence;
use avtp_base::Failed;
use avtp_files::Sink;

/// The start code before each unit of a byte stream.
const START_CODE: [u8; 4] = [0, 0, 0, 1];

/// Writes all the bytes. If the sink fails, it has taken a prefix of the bytes.
fn write_all<S: Sink>(sink: &mut S, bytes: &[u8]) -> Result<(), Failed>
    ensures { HasWritten (S.state sink.old) (S.state sink.new) result bytes.now }
{
    let mut written = 0;
    while written < bytes.len() {
        written += sink.write(&bytes[written..])?;
    }
    Ok(())
}

/// Writes `count` bytes of silence. If the sink fails, it has taken a prefix of the silence.
fn write_silence<S: Sink>(sink: &mut S, silence: Silence, count: usize) -> Result<(), Failed>
    ensures { HasWritten (S.state sink.old) (S.state sink.new) result (silence_of silence count) }
{
    if count == 0 {
        return Ok(());
    }
    let piece = silence.piece();
    for _ in 0..count / Silence::PIECE {
        write_all(sink, &piece)?;
    }
    write_all(sink, &piece[..count % Silence::PIECE])
}

/// Writes `silent` bytes of silence, and then samples. If the sink fails, it has taken a prefix of the silence and the
/// samples.
pub fn write_samples<S: Sink>(
    sink: &mut S,
    silence: Silence,
    silent: usize,
    bytes: &[u8],
) -> Result<(), Failed>
    ensures { HasWritten (S.state sink.old) (S.state sink.new) result (silence_of silence silent ++ bytes.now) }
{
    write_silence(sink, silence, silent)?;
    write_all(sink, bytes)
}

/// Writes a start code, and then a unit. If the sink fails, it has taken a prefix of these bytes.
pub fn write_unit<S: Sink>(sink: &mut S, bytes: &[u8]) -> Result<(), Failed>
    ensures { HasWritten (S.state sink.old) (S.state sink.new) result (0 ∷ 0 ∷ 0 ∷ 1 ∷ bytes.now) }
{
    write_all(sink, &START_CODE)?;
    write_all(sink, bytes)
}
