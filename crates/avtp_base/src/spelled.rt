//! Values that write themselves in place.

ghost use Rattle.std.specs.Prelude.{◌≡◌, length};

/// A value that knows its encoded length, and writes itself into a slice of that length. Writing in place is faster
/// than building a frame elsewhere and then copying the frame to the place after the record header: the copy would
/// stall on the bytes just written.
pub trait Spelled {
    ghost use Rattle.std.specs.Prelude.{List, ℕ};

    /// The encoded bytes.
    ghost spelling: { Self → List ℕ };

    /// The number of encoded bytes.
    fn size(&self) -> usize
        ensures { result ≡ length (Self.spelling self.now) };

    /// Writes the encoded bytes into the slice.
    fn write(&self, out: &mut [u8])
        requires { length out.old ≡ length (Self.spelling self.now) }
        ensures { out.new ≡ Self.spelling self.now };
}
