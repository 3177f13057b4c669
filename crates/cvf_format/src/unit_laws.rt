//! Laws of the units that packets make. Each call only states its contract, and does nothing.

ghost use Rattle.std.specs.Prelude.{◌≡◌, ◌≤◌, ◌++◌, ◌∷◌, ◌↔◌, ◌⊎◌, true, [], length, List};
ghost use Rattle.cvf_format.specs.Settled.{packets, settled, settled_by};
ghost use Rattle.cvf_format.specs.StretchRules.{EndsWith, IsStretch};
ghost use Rattle.cvf_format.specs.WholeOrBroken.{Event, Fragment, given_up, held, is_stretch, last_stretch, longest_unit, most_fragments, whole_unit};

/// `is_stretch` is true of exactly those lists of packets that the rules call a stretch.
#[tactic(auto, using(crate::proofs::RuleLemmas::stretch_so, crate::proofs::RuleLemmas::stretch_is))]
pub fn stretches_by_the_rules()
    ensures { (packets : List Fragment) → (is_stretch packets ≡ true) ↔ IsStretch packets }
{}

/// A list of events ends with at most one stretch, which is the one that `last_stretch` returns.
#[tactic(auto, using(crate::proofs::RuleLemmas::some_stretch))]
pub fn one_stretch()
    ensures one { (events : List Event) (stretch : List Fragment) → EndsWith events stretch → last_stretch events ≡ stretch }
    ensures some { (events : List Event) → (last_stretch events ≡ []) ⊎ EndsWith events (last_stretch events) }
{}

/// Packets are settled in the order of their arrival, none twice. The packets that are not settled yet are the last
/// packets, and wait. A packet is settled when a later event gives it up, when it is lost as it arrives, or when its
/// unit is complete.
#[tactic(auto, using(crate::proofs::SettledLemmas::each_settled, crate::proofs::SettledLemmas::event_settles))]
pub fn each_packet_once()
    ensures all { (events : List Event) → packets events ≡ settled [] events ++ held events }
    ensures next { (before : List Event) (event : Event) → held before ++ packets (event ∷ []) ≡ settled_by before event ++ held (before ++ event ∷ []) }
{}

/// At most 4,096 packets wait, an event gives up at most 4,096, and a complete unit has at most 4,194,304 bytes.
#[tactic(auto, using(crate::proofs::RuleLemmas::few_wait, crate::proofs::RuleLemmas::few_given_up, crate::proofs::RuleLemmas::short_unit))]
pub fn within_the_limits()
    ensures held { (events : List Event) → length (held events) ≤ most_fragments }
    ensures given_up { (events : List Event) → length (given_up events) ≤ most_fragments }
    ensures unit { (events : List Event) → length (whole_unit events) ≤ longest_unit }
{}
