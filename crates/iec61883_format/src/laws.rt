//! Laws of IEC 61883-6 packets. Each call only states its contract, and does nothing.

ghost use Rattle.std.specs.Prelude.{◌≡◌, ◌+◌, ◌++◌, false, length, List, ℕ};
ghost use Rattle.avtp_base.specs.Layout.{Fits};
ghost use Rattle.avtp_base.specs.Octets.{AreBytes};
ghost use Rattle.avtp_base.specs.Rows.{IsSpelledOnce};
ghost use Rattle.iec61883_format.specs.Iec.{Iec, IsWritableIec, SpellsIec, iec_layout, iec_refusal, iec_spelling, plain_iec};

/// Bytes spell exactly one packet, or are refused and spell none.
pub fn one_packet()
    ensures { (bytes : List ℕ) → IsSpelledOnce (iec_refusal bytes) (λ (v : Iec). SpellsIec bytes v) }
{}

/// Whatever bytes follow, the bytes written for a packet spell that packet with every reserved bit 0.
pub fn packet_again()
    ensures { (v : Iec) (trail : List ℕ) → IsWritableIec v → Fits iec_layout v → SpellsIec (iec_spelling v ++ trail) (plain_iec v) }
{}

/// If bytes spell a packet, set no reserved bit, and end with the packet, they are the bytes written for the packet.
pub fn one_spelling()
    ensures { (bytes : List ℕ) (v : Iec) → AreBytes bytes → SpellsIec bytes v → v.reserved ≡ false
        → length bytes ≡ 24 + v.header.data_length → bytes ≡ iec_spelling v }
{}
