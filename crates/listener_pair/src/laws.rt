//! Laws of pairs and differences. Each law is the contract of a function; a call of the function does nothing.

ghost use Rattle.std.specs.Prelude.{◌≡◌, ◌≤◌, ◌++◌, ℕ, List};
ghost use Rattle.std.specs.List.{AllByRecursion};
ghost use Rattle.sample_schedule.specs.Batches.{Presented};
ghost use Rattle.listener_pair.specs.declared.difference.Which.TheVariants.{A, B};
ghost use Rattle.listener_pair.specs.Differences.{counts_of};
ghost use Rattle.listener_pair.specs.Laws.{AddUp, FewWait, IsKnownFirst, IsPair, StayFirst, times_paired};
ghost use Rattle.listener_pair.specs.Matching.{IsSorted, MatchingState, StandsFor, batches_of};
ghost use Rattle.listener_pair.specs.Merged.{Sided, merged};
ghost use Rattle.listener_pair.specs.Pairs.{pairs};

/// If batches are appended to a merged list, the pairs and differences that the list had before are the first pairs and
/// differences of the longer list.
pub fn pairs_stay()
    ensures { (list more : List Sided) → StayFirst list (list ++ more) }
{}

/// The known part is a prefix of the merged list. After both sides have ended, the known part is the whole merged list.
pub fn known_comes_first()
    ensures { (list : List Sided) → IsKnownFirst list }
{}

/// The two batches of a pair are of different sides and at most 512 positions apart in the merged list. The two batches
/// have the same sequence number, and are close enough in time to present the same packet or unit.
pub fn pairs_are_of_two_sides()
    ensures { (list : List Sided) → AllByRecursion IsPair (pairs list) }
{}

/// Each batch is in at most one pair.
pub fn each_batch_is_paired_once()
    ensures { (list : List Sided) (place : ℕ) → times_paired list place ≤ 1 }
{}

/// A list in merged order is the merged list of its two sides. So two sides have only one list in merged order.
pub fn merged_is_the_only_one()
    ensures { (list : List Sided) → IsSorted list → merged (batches_of A list) (batches_of B list) ≡ list }
{}

/// At most 512 batches of each side wait for a partner.
pub fn at_most_512_wait()
    ensures { (xs ys : List Presented) (given : ℕ) (m : MatchingState) → StandsFor xs ys given m → FewWait m }
{}

/// Each batch is either in one pair or in no pair. So for each side, the number of all its batches is the number of
/// pairs plus the number of the side's batches in no pair.
pub fn counts_add_up()
    ensures { (xs ys : List Presented) → AddUp xs ys (counts_of (merged xs ys)) }
{}
