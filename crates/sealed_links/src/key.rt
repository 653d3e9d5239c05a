//! The key that both sides hold, and what is derived from it.

ghost use Rattle.std.specs.Prelude.{◌≡◌, ◌↔◌, ◌≤◌, IfSome, IsSome, vec_len};
ghost use Rattle.hmac.specs.Hmac.{hmac_of};
ghost use Rattle.sealed_links.specs.Handshakes.{code_of, said};

use hmac::Key;

/// The least number of bytes of a key.
const LEAST: usize = 32;

/// The key that both sides hold: the bytes of a file, at least 32. No call hands them out or prints them.
#[derive(Drop)]
pub struct SharedKey {
    pub(crate) bytes: Vec<u8>,
}

/// The fresh values of both sides.
#[derive(Clone, Copy)]
pub(crate) struct Nonces {
    pub(crate) coordinator: [u8; 32],
    pub(crate) worker: [u8; 32],
}

/// What a MAC under the shared key is for.
#[derive(Clone, Copy)]
pub(crate) enum Purpose {
    /// The coordinator shows that it has the key.
    CoordinatorShows,
    /// The worker shows that it has the key.
    WorkerShows,
    /// The key of records to the worker.
    ToWorker,
    /// The key of records to the coordinator.
    ToCoordinator,
}

impl Purpose {
    /// The byte that stands for it.
    fn code(self) -> u8
        ensures { result ≡ code_of self }
    {
        match self {
            Purpose::CoordinatorShows => 0,
            Purpose::WorkerShows => 1,
            Purpose::ToWorker => 2,
            Purpose::ToCoordinator => 3,
        }
    }
}

impl SharedKey {
    /// The key of these bytes; None if they are fewer than 32.
    pub fn new(bytes: Vec<u8>) -> Option<SharedKey>
        ensures some { IsSome result ↔ (32 ≤ vec_len bytes) }
        ensures key { IfSome result (λ key. key.bytes ≡ bytes) }
    {
        if bytes.len() < LEAST {
            return None;
        }
        Some(SharedKey { bytes })
    }

    /// The MAC of the protocol's name, a purpose, the fresh values of both sides, and the digest of a formula.
    pub(crate) fn mac(&self, purpose: Purpose, nonces: &Nonces, digest: &[u8; 32]) -> [u8; 32]
        ensures { result ≡ hmac_of self.now.bytes.items (said purpose nonces.now digest.now) }
    {
        let mut mac = Key::new(&self.bytes).begin();
        mac.update(b"satcluster link 1");
        mac.update(&[purpose.code()]);
        mac.update(&nonces.coordinator);
        mac.update(&nonces.worker);
        mac.update(digest);
        mac.finish()
    }
}
