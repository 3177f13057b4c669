//! The receiver's side of `listen`.

use avtp_base::Bytes;
use avtp_files::Shelf;
use capture_hearing::Hearing;
use presenter_ring::{Pull, Receiver};

/// A capture that is heard, and the shelf where the capture is open.
#[derive(Drop)]
pub struct Receiving<'h, 'f, F: Shelf + Send> {
    pub hearing: &'h mut Hearing,
    pub shelf: &'f mut F,
}

impl<'h, 'f, F: Shelf + Send> Receiver for Receiving<'h, 'f, F> {
    ghost use Rattle.std.specs.Prelude.{◌≡◌};
    ghost use Rattle.capture_io.specs.Source.{slot_of};
    ghost use Rattle.capture_hearing.specs.Hearing.{Shows, ended_at, left_of};

    ghost gave = { λ begun now items. (now.shelf.ghost_name ≡ begun.shelf.ghost_name) × (now.hearing.ghost_name ≡ begun.hearing.ghost_name)
        × Shows (F.state begun.shelf.now) (F.state now.shelf.now) begun.hearing.now.source now.hearing.now.source begun.hearing.now.listener now.hearing.now.listener now.hearing.now.stage items };

    ghost left = { λ receiving. left_of receiving.hearing.now.stage receiving.hearing.now.source receiving.hearing.now.listener };

    // If the receiver's file is not open, the receiver is treated as if a read fault had ended it. The invariant of the
    // receiver cannot say that the file is open, because a struct with a borrow cannot have such an invariant.
    ghost ended = { λ receiving. ended_at ((F.state receiving.shelf.now).slots (slot_of receiving.hearing.now.source)) receiving.hearing.now.stage };

    fn next(&mut self) -> Pull {
        self.hearing.next(self.shelf)
    }

    fn may_wait(&self) -> bool {
        self.hearing.may_wait()
    }

    fn take_back(&mut self, samples: Bytes) {
        self.hearing.take_back(samples);
    }
}
