//! Laws of H.264 packets. Each call only states its contract, and does nothing.

ghost use Rattle.std.specs.Prelude.{◌≡◌, ◌+◌, ◌++◌, false, length, List, ℕ};
ghost use Rattle.avtp_base.specs.Layout.{Fits};
ghost use Rattle.avtp_base.specs.Octets.{AreBytes};
ghost use Rattle.avtp_base.specs.Rows.{IsSpelledOnce};
ghost use Rattle.cvf_format.specs.Cvf.{Cvf, IsWritableCvf, SpellsCvf, cvf_refusal, cvf_spelling, layout_of, plain_cvf};

/// Bytes spell exactly one packet, or are refused and spell none.
pub fn one_packet()
    ensures { (bytes : List ℕ) → IsSpelledOnce (cvf_refusal bytes) (λ (v : Cvf). SpellsCvf bytes v) }
{}

/// Whatever bytes follow, the bytes written for a packet spell that packet with every reserved bit 0.
pub fn packet_again()
    ensures { (v : Cvf) (trail : List ℕ) → IsWritableCvf v → Fits (layout_of v.part) v → SpellsCvf (cvf_spelling v ++ trail) (plain_cvf v) }
{}

/// Suppose that bytes spell a packet, that no reserved bit is set, and that the bytes end where the packet ends. Then
/// the bytes are exactly those that are written for the packet.
#[tactic(auto, using(crate::proofs::CvfLemmas::cvf_only))]
pub fn one_spelling()
    ensures { (bytes : List ℕ) (v : Cvf) → AreBytes bytes → SpellsCvf bytes v → v.reserved ≡ false
        → length bytes ≡ 24 + v.header.data_length → bytes ≡ cvf_spelling v }
{}
