//! NAL units that are put together from their fragments.

ghost use Rattle.std.specs.Prelude.{◌≡◌, ◌≤◌, length, IfSome};

use cvf_format::{Assembler, Lost, Mark, NalPart, Piece, Pushed, read_cvf};
use std::alloc::Global;
use std::test::Fail;
use vectors_avtp::{bytes_of, check_rows};

/// Pushes a packet. `None` if the packet cannot be read or does not meet the conditions of `Assembler::push`. The
/// instant of the packet is its own timestamp.
fn push(assembler: &mut Assembler, frame: u64, packet: &[u8]) -> Option<Pushed>
    ensures { IfSome result (λ pushed. pushed.lost ≡ length assembler.new.lost) }
{
    let view = read_cvf(packet).ok()?;
    let instant = match view.header.tv {
        true => Some(i64::from(view.header.timestamp)),
        false => None,
    };
    if instant.is_none() && matches!(view.part, NalPart::Single | NalPart::Last) {
        return None;
    }
    if view.body.len() > 65_530 {
        return None;
    }
    let mark = Mark {
        frame,
        seq: view.header.seq,
        arrival: 0,
    };
    Some(assembler.push(mark, instant, &view))
}

/// The numbers of the frames that the latest push or cut gave up. `lost` is the number of frames that were given up.
fn given_up(alloc: Global, assembler: &Assembler, lost: u32) -> Result<String, Fail>
    requires { lost ≤ length assembler.now.lost }
{
    let mut text = String::new(alloc);
    for i in 0..lost {
        let frame = assembler.lost_mark(i).frame;
        text.push_str(format!(in alloc; "-{frame} ")?.as_str())?;
    }
    Ok(text)
}

/// What becomes of a packet: the frames that are given up because of it, then the packet's piece, then the bytes of the
/// unit if the unit is complete.
fn outcome(
    alloc: Global,
    assembler: &mut Assembler,
    frame: u64,
    words: &str,
) -> Result<String, Fail> {
    if words == "cut" {
        let lost = assembler.cut();
        return given_up(alloc, assembler, lost);
    }
    let packet = bytes_of(alloc, format!(in alloc; "h264 {words}")?.as_str())?;
    let pushed = push(assembler, frame, &packet).ok_or("a packet that may not be pushed")?;
    let lost = given_up(alloc, assembler, pushed.lost)?;
    let unit = hex::encode(alloc, assembler.unit())?;
    Ok(format!(in alloc; "{lost}{:?} {unit}", pushed.piece)?)
}

/// Packets and cuts, numbered from 1, and what becomes of each. `7c85`, `7c05` and `7c45` begin the first, a middle and
/// the last fragment of a unit whose first byte is `65`.
const ROWS: &str = "\
28=65000a => Whole 65000a0a;
2=00 28=7c850102, 2=01 28=7c050304, 2=02 28=7c450506, 2=03 28=7c45 => Held ; Held ; Whole 65010203040506; Lost(Broken) ;
1=8000 28=7c850102, 1=8001 28=7c050304, 1=8102 28=7c450506 => Held ; Held ; Whole 65010203040506;
// A repeated fragment breaks the unit, and the fragments after it continue nothing.
2=00 28=7c85, 2=01 28=7c05, 2=01 28=7c05, 2=02 28=7c45 => Held ; Held ; -1 -2 Lost(Broken) ; Lost(Broken) ;
1=8000 28=7c85, 1=8001 28=7c05, 1=8001 28=7c05, 1=8102 28=7c45 => Held ; Held ; -1 -2 Lost(Broken) ; Lost(Broken) ;
// Which fragments continue a unit, and which do not.
2=ff 28=7c85, 2=00 28=7c45 => Held ; Whole 65000a000a;
2=ff 28=7c85, 2=00 28=7c05 => Held ; Held ;
2=ff 28=7c85, 1=8000 28=7c05 => Held ; Held ;
2=ff 28=7c85, 2=00 15=81 28=7c45 => Held ; -1 Lost(Broken) ;
2=ff 28=7c85, 2=00 15=7f 28=7c05 => Held ; -1 Lost(Broken) ;
2=ff 28=7c85, 2=ff 28=7c45 => Held ; -1 Lost(Broken) ;
2=ff 28=7c85, 2=01 28=7c45 => Held ; -1 Lost(Broken) ;
2=ff 28=7c85, 2=00 28=7c41 => Held ; -1 Lost(Broken) ;
2=ff 28=7c85, 2=00 28=5c45 => Held ; -1 Lost(Broken) ;
2=ff 28=7c85, 2=00 28=7c85 => Held ; -1 Held ;
2=ff 28=7c85, 2=00 28=65 => Held ; -1 Whole 6542000a;
// No unit continues across a cut.
cut, 2=00 28=7c85, 2=01 28=7c05, cut, 2=02 28=7c45, 2=03 28=65 => ; Held ; Held ; -2 -3 ; Lost(Broken) ; Whole 6542000a;";

/// What becomes of each packet and of each cut.
fn outcomes(alloc: Global, row: &str) -> Result<String, Fail> {
    let mut assembler = Assembler::new(alloc)?;
    let mut text = String::new(alloc);
    for (before, words) in row.split(", ").enumerate() {
        let frame = (before as u64).saturating_add(1);
        text.push_str(outcome(alloc, &mut assembler, frame, words)?.as_str())?;
        text.push_str("; ")?;
    }
    Ok(text)
}

#[test]
fn a_unit_is_whole_if_its_fragments_go_on_with_each_other(rt: HostRuntime) -> Result<(), Fail> {
    let alloc = rt.alloc();
    check_rows(ROWS, |row| outcomes(alloc, row))
}

/// Pushes all fragments of one unit. `fragments` is the number of fragments. All fragments but the last have equal
/// bodies. Returns what becomes of the last fragment.
fn push_long(
    assembler: &mut Assembler,
    fragments: u64,
    packet: &mut [u8],
    last: &mut [u8],
) -> Option<Pushed> {
    for place in 1..fragments {
        *packet.get_mut(2)? = (place % 256) as u8;
        *packet.get_mut(29)? = if place == 1 { 0x85 } else { 0x05 };
        push(assembler, place, packet)?;
    }
    *last.get_mut(2)? = (fragments % 256) as u8;
    push(assembler, fragments, last)
}

/// For each unit: how many fragments it has, a fragment other than its last, its last fragment, and what becomes of the
/// last fragment.
const LONG: [(u64, &str, &str, &str); 5] = [
    (
        4_096,
        "21=07 28=7c05 len=31",
        "21=07 28=7c45 len=31",
        "0 Whole 4097",
    ),
    (
        4_097,
        "21=07 28=7c05 len=31",
        "21=07 28=7c45 len=31",
        "4096 Lost(Long) 0",
    ),
    (
        4_098,
        "21=07 28=7c05 len=31",
        "21=07 28=7c45 len=31",
        "0 Lost(Broken) 0",
    ),
    (
        1_024,
        "20=1006 28=7c05 len=4126",
        "20=1005 28=7c45 len=4125",
        "0 Whole 4194304",
    ),
    (
        1_024,
        "20=1006 28=7c05 len=4126",
        "20=1006 28=7c45 len=4126",
        "1023 Lost(Long) 0",
    ),
];

/// A unit that is too long is lost with all its fragments. If a unit is too long, the fragments that follow the unit
/// are lost, too.
#[test]
fn a_unit_has_at_most_4096_fragments_and_4194304_bytes(rt: HostRuntime) -> Result<(), Fail> {
    let mut assembler = Assembler::new(rt.alloc())?;
    for (fragments, packet, last, wanted) in LONG {
        let mut each = bytes_of(
            rt.alloc(),
            format!(in rt.alloc(); "h264 {packet}")?.as_str(),
        )?;
        let mut last = bytes_of(rt.alloc(), format!(in rt.alloc(); "h264 {last}")?.as_str())?;
        let pushed = push_long(&mut assembler, fragments, &mut each, &mut last);
        let pushed = pushed.ok_or("a packet that may not be pushed")?;
        let size = assembler.unit().len();
        let found = format!(in rt.alloc(); "{} {:?} {size}", pushed.lost, pushed.piece)?;
        assert_eq!(rt; found.as_str(), wanted, "{fragments} of {packet}");
    }
    Ok(())
}
