//! The hash, over messages of some letters `a`.
use crate::rows::{Desk, Told, play, size, word};
use pcache_base::blake2b::Hasher;
use pcache_base::key::{HashBinary, str2hex};

#[derive(Drop)]
struct Hashes {
    text: [u8; 257],
}

impl Desk for Hashes {
    fn tell(&mut self, call: &'static str, told: &mut Told) {
        match word(call, 0) {
            "of" => told.hash(digest_of(self.text.as_slice(), size(call, 1))),
            _ => told.yes_or_no(is_hashed_anyhow_cut(self.text.as_slice())),
        }
    }
}

fn digest(bytes: &[u8]) -> HashBinary {
    let mut hasher = Hasher::new();
    hasher.update(bytes);
    hasher.finish()
}

fn digest_of(text: &[u8], len: usize) -> Option<HashBinary> {
    Some(digest(text.get(..len)?))
}

// The hash of the text in two pieces.
fn digest_cut(text: &[u8], cut: usize) -> Option<HashBinary> {
    let (first, second) = text.split_at_checked(cut)?;
    let mut hasher = Hasher::new();
    hasher.update(first);
    hasher.update(second);
    Some(hasher.finish())
}

// Whether the hash of the text in two pieces is always that of so many letters.
fn is_hashed_anyhow_cut(text: &[u8]) -> bool {
    for cut in 0..257 {
        if digest_cut(text, cut) != str2hex("29e452ed1a672b027a1cd3f5ac4849c6") {
            return false;
        }
    }
    true
}

// As python's hashlib has them.
const VECTORS: &str = "
    of 0 -> cae66941d9efbd404e4d88758ea67670
    of 1 -> 27c35e6e9373877f29e562464e46497e
    of 2 -> ac10f2aef117729f8dad056b3059eb7e
    of 127 -> 2228006d5107a5239e500da574466288
    of 128 -> 1271d28e731afb57bdfba6bdaf3501be
    of 129 -> 68b7bafbad5055c4ebe6eb170a0f8524
    of 255 -> fb2e0206aaf38999656af45c8779162f
    of 256 -> 2dbe331c95d600bb74dcd669f0618bd7
    of 257 -> 29e452ed1a672b027a1cd3f5ac4849c6
    # in two pieces, cut at every place
    cut -> yes";

#[test]
fn vectors_and_pieces(rt: HostRuntime) {
    let mut hashes = Hashes { text: [97u8; 257] };
    play(&rt, rt.alloc(), &mut hashes, VECTORS);
}
