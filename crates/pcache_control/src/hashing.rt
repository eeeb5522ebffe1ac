//! The hashes of the names of directives.
ghost use Rattle.std.specs.Prelude.{◌≡◌};
ghost use Rattle.pcache_control.specs.NameHashes.{keyed_by};

use http_header::{GetAll, HeaderValue};
use pcache_base::blake2b;
use std::hash::{BuildHasher, DefaultHasher, Hasher};
use std::marker::Model;

/// Hashes the names of the directives of some lines, under a key that is made of all of the lines:
/// SipHash after their BLAKE2b hash. A contract sees the hasher state from which each name is hashed.
///
/// A sender chooses the names. If the key were known before, names could be found that all have one
/// hash. Here each change of a name changes the key, so names collide only by chance.
#[derive(Clone, Copy, Debug)]
pub struct NameHasher {
    keyed: DefaultHasher,
}

impl Model for NameHasher {
    ghost use Rattle.std.specs.declared.hash.DefaultHasher.{DefaultHasher};

    ghost Value = { DefaultHasher };

    ghost view = { λ n. n.keyed };

    ghost inverse = { λ d. record { keyed = d } };
}

impl NameHasher {
    /// The hasher for the names in the lines of a field. It takes time linear in the number of their
    /// bytes.
    #[tactic(auto, unfolding(crate::specs::NameHashes::keyed_by))]
    pub fn keyed_by(lines: GetAll<'_, HeaderValue>) -> NameHasher
        ensures { result ≡ keyed_by lines.entry }
    {
        // By a cryptographic hash, so that lines cannot be steered towards a key that is known. A
        // usual line is one or two blocks of it.
        let mut message = blake2b::Hasher::new();
        'lines: for line in lines {
            message.update(line.as_bytes());
        }
        let mut keyed = DefaultHasher::new();
        keyed.write(&message.finish());
        NameHasher { keyed }
    }
}

impl BuildHasher for NameHasher {
    type Hasher = DefaultHasher;

    ghost build_hasher = { λ n. n };

    fn build_hasher(&self) -> DefaultHasher {
        self.keyed
    }
}
