//! For each request of a trace, which one asks next for its body.
ghost use Rattle.std.specs.Prelude.{◌≡◌, IfOk};
ghost use Rattle.belady.specs.Belady.{nexts};

use std::alloc::{AllocError, Global};
use std::collections::HashMap;

/// For each request for one of these bodies, the number of the next one for the same body, counted from
/// 0; `None` if there is none.
pub fn next_requests(alloc: Global, bodies: &[u128]) -> Result<Vec<Option<usize>>, AllocError>
    ensures { IfOk result (λ found. found.items ≡ nexts 0 bodies.now) }
{
    let mut last = HashMap::new(alloc);
    let mut found = Vec::with_capacity(alloc, bodies.len())?;
    for done in 0..bodies.len() {
        let number = bodies.len() - 1 - done;
        found.push(last.insert(bodies[number], number)?)?;
    }
    found.reverse();
    Ok(found)
}
