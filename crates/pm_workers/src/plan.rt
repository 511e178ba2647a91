// How a quota is divided.
ghost use Rattle.std.specs.Prelude.{◌≡◌, ◌<◌};
ghost use Rattle.pm_workers.specs.Shares.{share};

// A quota for so many stations.
#[derive(Clone, Copy)]
pub(crate) struct Plan {
    pub(crate) quota: u64,
    pub(crate) count: usize,
}

impl Plan {
    // How many deliveries the workers may have station i make.
    pub(crate) fn share(&self, i: usize) -> u64
        requires { i < self.now.count }
        ensures { result ≡ share self.now.quota self.now.count i }
    {
        let n = self.count as u64;
        let part = self.quota / n;
        if (i as u64) < self.quota % n {
            part + 1
        } else {
            part
        }
    }
}
