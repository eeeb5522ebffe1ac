//! Rows of Vary (RFC 9111 section 4.1): `the stored response's fields / those of the request that it was stored for / those
//! of the request that is presented`.
use crate::desk::{Desk, Told, part, play};
use crate::heads::fields;
use pcache_http::vary::selects;
use std::alloc::Global;
use std::test::Fail;

#[derive(Drop)]
struct Variants {
    alloc: Global,
}

impl Desk for Variants {
    fn tell(&mut self, call: &'static str, told: &mut Told) {
        let Some(stored) = fields(self.alloc, part(call, 0)) else {
            return;
        };
        let Some(original) = fields(self.alloc, part(call, 1)) else {
            return;
        };
        if let Some(presented) = fields(self.alloc, part(call, 2)) {
            told.yes_or_no(selects(&stored, &original, &presented));
        }
    }
}

#[test]
fn selected_variants(rt: HostRuntime) -> Result<(), Fail> {
    let mut desk = Variants { alloc: rt.alloc() };
    play(&rt, rt.alloc(), &mut desk, ROWS);
    Ok(())
}

const ROWS: &str = "\
    # 4.1: without a Vary each request is answered
    / A: 1 / A: 2 -> yes
    # 4.1: the fields that it nominates
    Vary: A / A: 1 / A: 1 -> yes
    Vary: A / A: 1 / A: 2 -> no
    Vary: a / A: 1 | B: 1 / A: 1 | B: 2 -> yes
    Vary: A, B / A: 1 | B: 1 / A: 1 | B: 2 -> no
    Vary: A | Vary: B / A: 1 | B: 1 / A: 1 | B: 2 -> no
    Vary: Accept-Encoding / Accept-Encoding: gzip / Accept-Encoding: br -> no
    # 4.1: what is absent matches only what is absent
    Vary: A / / -> yes
    Vary: A / A: 1 / -> no
    Vary: A / / A: 1 -> no
    Vary: A / A: / -> no
    Vary: A / A: / A: -> yes
    # 4.1: white space, and several lines as one
    Vary: A / A: 1,2 / A: 1, 2 -> yes
    Vary: A / A: 1 , 2 / A: 1,2 -> yes
    Vary: A / A: 1 | A: 2 / A: 1, 2 -> yes
    Vary: A / A: 1 | A: 2 / A: 2, 1 -> no
    Vary: A / A: 1, 2 / A: 1 -> no
    Vary: A / A: 1 / A: 1, 2 -> no
    Vary: A / A: 1 2 / A: 12 -> no
    # 4.1: a quoted text means itself
    Vary: A / A: \"1, 2\" / A: \"1,2\" -> no
    Vary: A / A: \"1, 2\" / A: \"1, 2\" -> yes
    # 4.1: a member `*` always fails to match
    Vary: * / A: 1 / A: 1 -> no
    Vary: A, * / A: 1 / A: 1 -> no
    Vary: A | Vary: * / A: 1 / A: 1 -> no
    # RFC 9110, 5.6.1: an empty member
    Vary: A,, / A: 1 / A: 1 -> yes
";
