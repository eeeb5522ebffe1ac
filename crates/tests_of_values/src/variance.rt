//! Which values of which names a variance depends on: upstream's `test_basic`,
//! `test_value_ordering` and `test_value_overriding` in our own words.
use crate::rows::{Desk, Told, play, rest, word};
use pcache_base::key::HashBinary;
use pcache_base::variance::VarianceBuilder;
use std::alloc::{AllocError, Global};

#[derive(Drop)]
struct Builds {
    alloc: Global,
}

impl Desk for Builds {
    fn tell(&mut self, call: &'static str, told: &mut Told) {
        let mut builder = VarianceBuilder::new(self.alloc);
        if add_all(self.alloc, &mut builder, call) {
            let varies = builder.has_variance();
            tell_hash(told, varies, builder.finalize());
        }
    }
}

// There is a hash if there is a variance.
fn tell_hash(told: &mut Told, varies: bool, hash: Option<HashBinary>) {
    if varies == hash.is_some() {
        told.hash(hash);
    } else {
        told.say("a hash, or a variance");
    }
}

// Adds each pair of a name and a value, and returns whether they had room.
fn add_all(alloc: Global, builder: &mut VarianceBuilder<'static>, call: &'static str) -> bool {
    for pair in rest(call).split(' ') {
        if let Some((name, value)) = pair.split_once('=')
            && add(alloc, builder, word(call, 0), name, value.as_bytes()).is_err()
        {
            return false;
        }
    }
    true
}

// Lends name and value, or gives the value away, or both.
fn add(
    alloc: Global,
    builder: &mut VarianceBuilder<'static>,
    kind: &str,
    name: &'static str,
    value: &'static [u8],
) -> Result<(), AllocError> {
    match kind {
        "lent" => builder.add_value(name, value),
        "value" => builder.add_owned_value(name, value.to_vec(alloc)?),
        _ => {
            let name = String::from_str(alloc, name)?;
            builder.add_owned_name_value(name, value.to_vec(alloc)?)
        }
    }
}

// The hashes are those of names and values, by name, with a byte 0 after each, as python's hashlib has them.
const VARIANCES: &str = "
    lent -> none
    lent a=a -> a5ebffcdf1667531d459407d3dc748d3
    value a=a -> a5ebffcdf1667531d459407d3dc748d3
    both a=a -> a5ebffcdf1667531d459407d3dc748d3
    # in any order
    lent a=a b=b c=c -> 15f335223c45aeb47ea6983eb5218647
    lent b=b a=a c=c -> 15f335223c45aeb47ea6983eb5218647
    lent c=c b=b a=a -> 15f335223c45aeb47ea6983eb5218647
    # the last value of a name counts
    lent a=b a=a -> a5ebffcdf1667531d459407d3dc748d3
    # a value may hold the bytes that stand between names and values
    lent a=b\0c\0d -> 5636591d4f9912d34ed8955462dddff8
    lent c=d a=b -> 5636591d4f9912d34ed8955462dddff8";

#[test]
fn basic_ordering_overriding_and_zero_bytes(rt: HostRuntime) {
    let alloc = rt.alloc();
    play(&rt, alloc, &mut Builds { alloc }, VARIANCES);
}
