//! NAL units in a byte stream (ITU-T H.264, annex B).

ghost use Rattle.std.specs.Prelude.{◌≡◌, ◌+◌, ◌-◌, ◌<◌, ◌≤◌, [], ◌∷◌, length, None, MatchOption, IfSome, IfOk};
ghost use Rattle.std.specs.List.{last_or};
ghost use Rattle.std.specs.Option.{option_map};
ghost use Rattle.memchr.specs.Find.{IsFirst, OccursAt};
ghost use Rattle.cvf_format.specs.AnnexB.{AreUnits, is_end, is_other_byte, nal_units, places, start_code, units_from};
ghost use Rattle.cvf_format.specs.state.Ranges.{EndsUnit, IsNonempty, IsRange};

use avtp_base::NoMemory;
use memchr::memmem;
use std::alloc::Global;

/// The start code, which comes before each unit.
const START_CODE: [u8; 3] = [0, 0, 1];

/// The first index, at `from` or later, where `needle` is found.
fn find_from(bytes: &[u8], needle: &[u8], from: usize) -> Option<usize>
    requires { from ≤ length bytes.now }
    ensures { IsFirst (OccursAt bytes.now needle.now) from (length bytes.now + 1) result }
{
    match memmem::find(&bytes[from..], needle) {
        Some(found) => Some(from + found),
        None => None,
    }
}

/// Whether a unit ends before the two zero bytes at index `zeros`. A unit ends there if the bytes from `zeros` on begin
/// with a start code or three zero bytes.
#[tactic(auto, using(crate::proofs::AnnexBLemmas::third_tells))]
fn ends_at(bytes: &[u8], zeros: usize) -> bool
    requires { OccursAt bytes.now (0 ∷ 0 ∷ []) zeros }
    ensures { result ≡ is_end bytes.now zeros }
{
    zeros + 2 < bytes.len() && bytes[zeros + 2] <= 1
}

/// A unit begins at `from`. The result is the index where the unit ends: before a start code or three zero bytes, or at
/// the end of the bytes.
fn end_of_unit(bytes: &[u8], from: usize) -> usize
    requires { from ≤ length bytes.now }
    ensures { EndsUnit bytes.now from result }
{
    let mut at = from;
    while let Some(zeros) = find_from(bytes, &[0, 0], at) {
        if ends_at(bytes, zeros) {
            return zeros;
        }
        at = zeros + 1;
    }
    bytes.len()
}

/// The range from `from` to before `end` without the zero bytes at its end; `None` if all its bytes are 0.
fn without_zeros(bytes: &[u8], from: usize, end: usize) -> Option<(usize, usize)>
    requires { IsRange bytes.now from end }
    ensures value { result ≡ option_map (λ last. (from, last + 1)) (last_or None (places (is_other_byte bytes.now) from end)) }
    ensures range { IfSome result (IsNonempty from end) }
{
    for last in (from..end).rev() {
        if bytes[last] != 0 {
            return Some((from, last + 1));
        }
    }
    None
}

/// The first NAL unit whose start code begins at or after `from`: the index of its first byte, and the index after its
/// last byte. `None` if there is no such unit. If this function is called first with 0, and then with the end of each
/// unit, it finds all units in order. `from` must be at most the number of bytes.
pub fn next_unit(bytes: &[u8], from: usize) -> Option<(usize, usize)>
    requires { from ≤ length bytes.now }
    ensures next { MatchOption result (units_from bytes.now from ≡ []) (λ unit. units_from bytes.now from ≡ unit ∷ units_from bytes.now unit.1) }
    ensures some { IfSome result (λ unit. unit.0 < unit.1) }
    ensures behind { IfSome result (λ unit. from + 3 ≤ unit.0) }
    ensures within { IfSome result (λ unit. unit.1 ≤ length bytes.now) }
{
    let mut at = from;
    while let Some(code) = find_from(bytes, &START_CODE, at) {
        let end = end_of_unit(bytes, code + 3);
        if let Some(unit) = without_zeros(bytes, code + 3, end) {
            return Some(unit);
        }
        at = end;
    }
    None
}

/// The NAL units of a byte stream, in order: for each, the index of its first byte, and the index after its last byte.
///
/// A start code is 00 00 01. A unit begins after a start code and ends before the next 00 00 01 or 00 00 00, or at the
/// end of the bytes. Zero bytes at the end of a unit are dropped. A unit that has only zero bytes is left out. Bytes
/// before the first start code belong to no unit. Bytes from 00 00 00 to the next start code belong to no unit. Returns
/// `NoMemory` if the list cannot be allocated; nothing else is allocated.
pub fn split_annex_b(alloc: Global, bytes: &[u8]) -> Result<Vec<(usize, usize)>, NoMemory>
    ensures units { IfOk result (λ units. AreUnits bytes.now units.items) }
    ensures value { IfOk result (λ units. units.items ≡ nal_units bytes.now) }
{
    let mut units = Vec::new(alloc);
    let mut at = 0;
    while let Some(unit) = next_unit(bytes, at) {
        units.push(unit)?;
        at = unit.1;
    }
    Ok(units)
}
