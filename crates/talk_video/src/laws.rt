//! Laws of how packets carry NAL units. Each call only states its contract, and does nothing.

ghost use Rattle.std.specs.Prelude.{◌≡◌, ◌⊎◌, ◌↔◌, true, ◌<◌, ◌+◌, suc, List, ℕ};
ghost use Rattle.std.specs.List.{flat_map, range_with_len};
ghost use Rattle.talk_video.specs.AccessUnits.{HasSlice, access_unit, may_begin, unit_at};
ghost use Rattle.talk_video.specs.Fragments.{body_of, packets_at, packets_before, packets_for, place_of, rest_in};

/// The first NAL unit is in access unit 0. Each later unit is in the access unit of its predecessor, or in the next
/// access unit. A later unit is in the next access unit if and only if two things hold: the access unit of its
/// predecessor already has a slice, and the later unit can begin an access unit.
pub fn access_units_begin()
    ensures first { (bytes : List ℕ) (units : List (ℕ × ℕ)) → access_unit bytes units 0 ≡ 0 }
    ensures further { (bytes : List ℕ) (units : List (ℕ × ℕ)) (i : ℕ)
        → (access_unit bytes units (suc i) ≡ access_unit bytes units i) ⊎ (access_unit bytes units (suc i) ≡ suc (access_unit bytes units i)) }
    ensures next { (bytes : List ℕ) (units : List (ℕ × ℕ)) (i : ℕ)
        → access_unit bytes units (suc i) ≡ suc (access_unit bytes units i) ↔ (HasSlice bytes units i × (may_begin bytes (unit_at units (suc i)) ≡ true)) }
{}

/// Packet `n` of H.264 carries fragment `k` of unit `i` if and only if two things hold: unit `i` has a fragment `k`,
/// and n - k packets carry the units before unit `i`. The bodies of a unit's packets, put together, are the unit
/// without its first byte.
pub fn units_are_carried()
    ensures place { (units : List (ℕ × ℕ)) (n i k : ℕ)
        → place_of units n ≡ record { unit = i; fragment = k } ↔ ((packets_before units i + k ≡ n) × (k < packets_at units i)) }
    ensures whole { (bytes : List ℕ) (unit : ℕ × ℕ) → flat_map (body_of bytes unit) (range_with_len 0 (packets_for unit)) ≡ rest_in bytes unit }
{}
