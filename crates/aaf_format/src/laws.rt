//! Laws of PCM packets. Each call only states its contract, and does nothing.

ghost use Rattle.std.specs.Prelude.{◌≡◌, ◌+◌, ◌++◌, false, length, List, ℕ};
ghost use Rattle.avtp_base.specs.Layout.{Fits};
ghost use Rattle.avtp_base.specs.Octets.{AreBytes};
ghost use Rattle.avtp_base.specs.Rows.{IsSpelledOnce};
ghost use Rattle.aaf_format.specs.Aaf.{Aaf, IsWritableAaf, SpellsAaf, aaf_layout, aaf_refusal, aaf_spelling, plain_aaf};

/// Bytes spell exactly one packet, or are refused and spell none.
pub fn one_packet()
    ensures { (bytes : List ℕ) → IsSpelledOnce (aaf_refusal bytes) (λ (v : Aaf). SpellsAaf bytes v) }
{}

/// Whatever bytes follow, the bytes that are written for a packet spell that packet, but with its reserved bits changed
/// to 0.
pub fn packet_again()
    ensures { (v : Aaf) (trail : List ℕ) → IsWritableAaf v → Fits aaf_layout v → SpellsAaf (aaf_spelling v ++ trail) (plain_aaf v) }
{}

/// If bytes spell a packet, set no reserved bit, and end where the packet ends, they are exactly what a writer writes
/// for it.
pub fn one_spelling()
    ensures { (bytes : List ℕ) (v : Aaf) → AreBytes bytes → SpellsAaf bytes v → v.reserved ≡ false
        → length bytes ≡ 24 + v.header.data_length → bytes ≡ aaf_spelling v }
{}
