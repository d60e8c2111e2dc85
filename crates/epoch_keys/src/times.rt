// The lengths of epochs, and the epochs that are live at a moment.
ghost use Rattle.std.specs.Prelude.{◌≡◌, ℕ, ◌/◌, ◌^◌, ◌<◌, ◌≤◌, ◌↔◌, IsOk, IfOk, IsErrOf};
ghost use Rattle.epoch_keys.specs.Epochs.{EpochTimes, InRange};

use crate::TimesFault;
use std::marker::Model;

/// The length of an epoch and the grace round it, in milliseconds.
#[derive(Clone, Copy)]
pub struct Times {
    epoch: u64,
    grace: u64,
}

impl Model for Times {
    ghost Value = { EpochTimes };

    ghost view = { λ t. record { epoch = t.epoch; grace = t.grace } };

    ghost invariant = { λ t. InRange (record { epoch = t.epoch; grace = t.grace }) };

    ghost inverse = { λ times. record { epoch = times.epoch; grace = times.grace } };
}

impl Times {
    /// Epochs of this length, with this grace. `Epoch` comes exactly where the length isn't 4 to 2^40, and else
    /// `Grace` exactly where the grace is above a quarter of it.
    pub fn new(epoch: u64, grace: u64) -> Result<Times, TimesFault>
        ensures ok { IsOk result ↔ InRange (record { epoch = epoch; grace = grace }) }
        ensures epoch { IsErrOf result TimesFault.Epoch ↔ ¬ ((4 ≤ epoch) × (epoch ≤ 2 ^ 40)) }
        ensures grace { IsErrOf result TimesFault.Grace
            ↔ ((4 ≤ epoch) × (epoch ≤ 2 ^ 40) × (epoch / 4 < grace)) }
        ensures lengths { IfOk result (λ times. times ≡ record { epoch = epoch; grace = grace }) }
    {
        if !(4..=1 << 40).contains(&epoch) {
            return Err(TimesFault::Epoch);
        }
        if grace > epoch / 4 {
            return Err(TimesFault::Grace);
        }
        Ok(Times { epoch, grace })
    }

    /// The length of an epoch.
    pub fn epoch(&self) -> u64
        ensures value { result ≡ self.now.epoch }
        ensures in_range { InRange self.now }
    {
        self.epoch
    }

    /// The grace.
    pub fn grace(&self) -> u64
        ensures value { result ≡ self.now.grace }
        ensures in_range { InRange self.now }
    {
        self.grace
    }
}

/// The epochs that are live at a moment: the one that the moment lies in, and maybe a neighbour.
#[derive(Clone, Copy, Debug, PartialEq, Eq)]
pub struct Live {
    pub first: u64,
    pub other: Option<u64>,
}
