//! The bytes that are written for missing samples. `raw.rt` says when they are written, and how many.

/// What is written for missing samples.
#[derive(Clone, Copy, Debug, PartialEq, Eq)]
pub enum Silence {
    /// Bytes of 0.
    Zero,
    /// AM824 quadlets (IEC 61883-6) with the value 0: 40 00 00 00.
    Am824,
}

/// The label of linear audio, the first byte of an AM824 quadlet.
const LABEL: u8 = 0x40;

impl Silence {
    ghost use Rattle.std.specs.Prelude.{◌≡◌};
    ghost use Rattle.device_rack.specs.RawOutput.{silent_byte, silence_of};

    /// The number of bytes in a piece of silence. A piece consists of whole quadlets.
    pub(crate) const PIECE: usize = 1024;

    /// Byte `j` of silence.
    fn byte(self, j: usize) -> u8
        ensures { result ≡ silent_byte self j }
    {
        match self {
            Silence::Zero => 0,
            Silence::Am824 => { if j % 4 == 0 { LABEL } else { 0 } }
        }
    }

    /// A piece of silence.
    pub(crate) fn piece(self) -> [u8; 1024]
        ensures { result ≡ silence_of self Self.PIECE }
    {
        let mut bytes = [0; 1024];
        for (j, byte) in bytes.iter_mut().enumerate() {
            *byte = self.byte(j);
        }
        bytes
    }
}
