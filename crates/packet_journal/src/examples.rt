//! Small journals with their packets, and whether they keep the rules. Each call only states its contract, and does nothing.

ghost use Rattle.std.specs.Prelude.{ℤ, pos};
ghost use Rattle.packet_journal.specs.Packets.{IsConforming};
ghost use Rattle.packet_journal.specs.Examples.{block_packets, clocked_packets, restarted_packets};

/// A sparse talker that restarts sends the packets in `restarted_packets`. These packets keep the rules, whatever a
/// listener adds to the timestamps of a clock.
pub fn restarted_packets_conform()
    ensures { (shift : ℤ) → IsConforming shift restarted_packets }
{}

/// An AM824 talker sends the packets in `block_packets`. These packets keep the rules, whatever a listener adds to the
/// timestamps of a clock.
pub fn block_packets_conform()
    ensures { (shift : ℤ) → IsConforming shift block_packets }
{
    stream_journal::examples::block_talkers_conform();
}

/// In `clocked_packets`, a talker sends a stream and a clock, and the packets of both keep the rules. Listeners add a
/// microsecond to the clock's timestamps.
pub fn clocked_packets_conform()
    ensures { IsConforming (pos 1000) clocked_packets }
{
    stream_journal::examples::clocked_talkers_conform();
}
