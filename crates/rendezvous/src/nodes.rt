//! The node of a key: the one wins whose hash with the key is highest (Thaler, Ravishankar, 1998).
ghost use Rattle.std.specs.Prelude.{◌≡◌, ◌⊎◌, [], IfSome, None};
ghost use Rattle.rendezvous.specs.Nodes.{stirred, mixed, score, Beats, GoesTo};

/// The node that a key with this hash goes to, of nodes with these numbers; `None` if there is none.
pub fn node_of(hash: u64, nodes: &[u64]) -> Option<u64>
    ensures some { IfSome result (λ node. GoesTo hash nodes.now node) }
    ensures none { result ≡ None → nodes.now ≡ [] }
{
    // By the highest hash, so that a node which goes moves only its own keys.
    let mut best = *nodes.first()?;
    for place in 1..nodes.len() {
        best = winner(hash, best, nodes[place]);
    }
    Some(best)
}

// The one of two nodes that a key goes to.
fn winner(hash: u64, one: u64, other: u64) -> u64
    ensures either { (result ≡ one) ⊎ (result ≡ other) }
    ensures one { Beats hash result one }
    ensures other { Beats hash result other }
{
    let (mine, its) = (score(hash, one), score(hash, other));
    if mine > its || (mine == its && one <= other) {
        return one;
    }
    other
}

// The hash of a key's hash and a node.
fn score(hash: u64, node: u64) -> u64
    ensures { result ≡ score hash node }
{
    // Mixed twice, since the numbers of nodes are near each other. BLAKE2b of each pair would take
    // longer than all else.
    mixed(hash ^ mixed(node.wrapping_add(1)))
}

// A number spread over all bits: the finalizer of SplitMix64.
fn mixed(number: u64) -> u64
    ensures { result ≡ mixed number }
{
    let last = stirred_again(stirred(number));
    last ^ (last >> 31)
}

fn stirred(number: u64) -> u64
    ensures { result ≡ stirred 30 0xbf58476d1ce4e5b9 number }
{
    (number ^ (number >> 30)).wrapping_mul(0xbf58_476d_1ce4_e5b9)
}

fn stirred_again(number: u64) -> u64
    ensures { result ≡ stirred 27 0x94d049bb133111eb number }
{
    (number ^ (number >> 27)).wrapping_mul(0x94d0_49bb_1331_11eb)
}
