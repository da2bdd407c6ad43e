use rand_core::{Rng, SeedableRng};
use rand_xoshiro::SplitMix64;
use sd_io::Gate;
use std::sync::atomic::{AtomicU64, Ordering};
use std::thread;

/// A gate that holds each call back for a while that seems random: the call yields its processor up to 63 times.
#[derive(Drop)]
pub(crate) struct Delays {
    passes: AtomicU64,
}

impl Delays {
    /// The gate whose delays go by this number.
    pub(crate) fn seeded(seed: u64) -> Delays {
        Delays {
            passes: AtomicU64::new(seed.wrapping_mul(1 << 32)),
        }
    }
}

impl Gate for Delays {
    fn pass(&self, _call: u64) {
        let pass = self.passes.fetch_add(1, Ordering::SeqCst);
        let delay = SplitMix64::seed_from_u64(pass).next_u64() % 64;
        for _ in 0..delay {
            thread::yield_now();
        }
    }
}
