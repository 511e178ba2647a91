// What an epoch made.
ghost use Rattle.std.specs.Prelude.{◌≡◌, ◌%◌, ◌^◌, true, Any, IsTrue, ◌↔◌};
ghost use Rattle.pm_workers.specs.Epochs.{told_by};

use crate::Station;

/// What an epoch made: how many deliveries, and whether some station is spoilt afterwards.
#[derive(Clone, Copy, Debug, PartialEq, Eq)]
pub struct Count {
    pub made: u64,
    pub memory: bool,
}

// The sum of the stories' lengths, which may wrap.
pub(crate) fn told_sum<S: Station>(stations: &[S]) -> u64
    ensures { result ≡ told_by S.story stations.now % 2 ^ 64 }
{
    let mut sum = 0u64;
    for it in stations {
        sum = sum.wrapping_add(it.told());
    }
    sum
}

// Whether some station is spoilt.
pub(crate) fn any_spoilt<S: Station>(stations: &[S]) -> bool
    ensures { IsTrue result ↔ Any (λ s. S.is_spoilt s ≡ true) stations.now }
{
    stations.iter().any(|it| it.spoilt())
}
