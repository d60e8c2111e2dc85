// Epochs of time: each is live for a while before it begins and after it ends, so at a moment one or two are.
ghost use Rattle.std.specs.Prelude.{◌≡◌, ℕ, ◌+◌, ◌^◌, ◌<◌, ◌≤◌, ◌↔◌, ◌∷◌, IsTrue, Contains};
ghost use Rattle.std.specs.Option.{option_to_list};
ghost use Rattle.epoch_keys.specs.Epochs.{is_live, current, live_epochs};
ghost use Rattle.epoch_keys.specs.Epochs as epochs;

use crate::times::{Live, Times};

/// The epochs that are live at a moment below 2^60, the current one first.
#[tactic(auto, using(crate::proofs::LiveEpochs::live_exactly, crate::proofs::LiveEpochs::with_before, crate::proofs::LiveEpochs::with_after, crate::proofs::LiveEpochs::alone))]
pub fn live(moment: u64, times: &Times) -> Live
    requires { moment < 2 ^ 60 }
    ensures first { result.first ≡ current times.now moment }
    ensures all { result.first ∷ option_to_list result.other ≡ live_epochs times.now moment }
    ensures exactly { (epoch : ℕ) →
        IsTrue (is_live times.now epoch moment) ↔ Contains (live_epochs times.now moment) epoch }
{
    let epoch = times.epoch();
    let grace = times.grace();
    let first = moment / epoch;
    let begun = first * epoch;
    let other = if first > 0 && moment < begun + grace {
        Some(first - 1)
    } else if begun + epoch <= moment + grace {
        Some(first + 1)
    } else {
        None
    };
    Live { first, other }
}

/// The least epoch that is live at a moment below 2^60.
pub fn least_live(moment: u64, times: &Times) -> u64
    requires { moment < 2 ^ 60 }
    ensures value { result ≡ epochs.least_live times.now moment }
    ensures live { IsTrue (is_live times.now result moment) }
    ensures least { (epoch : ℕ) → IsTrue (is_live times.now epoch moment) → result ≤ epoch }
    ensures near { (epoch : ℕ) → Contains (live_epochs times.now moment) epoch →
        (result ≤ epoch) × (epoch ≤ result + 1) }
{
    moment.saturating_sub(times.grace()) / times.epoch()
}
