//! Laws of keys and nodes.
ghost use Rattle.std.specs.Prelude.{◌≡◌, ℕ, List, All, Contains};
ghost use Rattle.rendezvous.specs.Nodes.{GoesTo};

/// A key goes to one node alone.
pub fn one_node()
    ensures { (hash : ℕ) (nodes : List ℕ) (one other : ℕ)
        → GoesTo hash nodes one
        → GoesTo hash nodes other
        → other ≡ one }
{}

/// A key stays with its node as long as that is there, whichever others go: so a node that goes moves its
/// own keys alone.
pub fn others_stay()
    ensures { (hash : ℕ) (nodes left : List ℕ) (node : ℕ)
        → GoesTo hash nodes node
        → All (Contains nodes) left
        → Contains left node
        → GoesTo hash left node }
{}

/// Where nodes come, a key stays with its node or goes to one that came.
pub fn only_new_ones_gain()
    ensures { (hash : ℕ) (nodes more : List ℕ) (node other : ℕ)
        → GoesTo hash nodes node
        → All (Contains more) nodes
        → GoesTo hash more other
        → Contains nodes other
        → other ≡ node }
{}
