//! Plans whose times are worked out by hand. Each call only states its contract, and does nothing.

ghost use Rattle.std.specs.Prelude.{◌<◌, List, ℕ};
ghost use Rattle.stream_journal.specs.Examples.{each_eighth, each_sixteenth, restarted};
ghost use Rattle.talker.specs.Examples.{HasSameTimes, restarting, six_blocks};
ghost use Rattle.talker.specs.Journal.{journal};

/// A sparse stream restarts after every ten packets. The stream's first twenty packets have the times, timestamps and
/// restart bits that a journal lists packet by packet.
pub fn restarting_plan_is_worked_out()
    ensures { (input : List ℕ) (n : ℕ) → n < 20 → HasSameTimes (journal restarting input).times restarted n }
{}

/// In AM824 with 6 blocks in a packet, at 48 kHz and at 96 kHz, the first eight packets have the times and timestamps
/// that journals list packet by packet.
pub fn block_plans_are_worked_out()
    ensures eighth { (input : List ℕ) (n : ℕ) → n < 8 → HasSameTimes (journal (six_blocks 48000) input).times each_eighth n }
    ensures sixteenth { (input : List ℕ) (n : ℕ) → n < 8 → HasSameTimes (journal (six_blocks 96000) input).times each_sixteenth n }
{}
