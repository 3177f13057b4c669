//! Laws of packets of the clock reference format. Each call only states its contract, and does nothing.

ghost use Rattle.std.specs.Prelude.{◌≡◌, ◌+◌, ◌++◌, false, length, List, ℕ};
ghost use Rattle.avtp_base.specs.Layout.{Fits};
ghost use Rattle.avtp_base.specs.Octets.{AreBytes};
ghost use Rattle.avtp_base.specs.Rows.{IsSpelledOnce};
ghost use Rattle.crf_format.specs.Crf.{Crf, IsWritableCrf, SpellsCrf, crf_layout, crf_refusal, crf_spelling, plain_crf};

/// Bytes spell exactly one packet, or are refused and spell none.
pub fn one_packet()
    ensures { (bytes : List ℕ) → IsSpelledOnce (crf_refusal bytes) (λ (v : Crf). SpellsCrf bytes v) }
{}

/// Whatever bytes follow, the bytes written for a packet spell that packet with the reserved bit 0.
pub fn packet_again()
    ensures { (v : Crf) (trail : List ℕ) → IsWritableCrf v → Fits crf_layout v → SpellsCrf (crf_spelling v ++ trail) (plain_crf v) }
{}

/// If bytes spell a packet, do not set the reserved bit, and end with the packet, they are the bytes written for the
/// packet.
pub fn one_spelling()
    ensures { (bytes : List ℕ) (v : Crf) → AreBytes bytes → SpellsCrf bytes v → v.reserved ≡ false
        → length bytes ≡ 20 + length v.payload → bytes ≡ crf_spelling v }
{}
