//! Rows of ages (RFC 9111 section 4.2.3): `when it was asked for, received, and looked at / the response's fields`, in
//! seconds. Second 1,000 is 00:16:40 of the first day of 1970.
use crate::desk::{Desk, Told, number, part, play};
use crate::heads::fields;
use pcache_base::moment::Moment;
use pcache_http::age::{corrected_initial_age, current_age};
use std::alloc::Global;
use std::test::Fail;

#[derive(Drop)]
struct Ages {
    alloc: Global,
}

impl Desk for Ages {
    fn tell(&mut self, call: &'static str, told: &mut Told) {
        let Some(headers) = fields(self.alloc, part(call, 1)) else {
            return;
        };
        let times = part(call, 0);
        let asked = Moment::from_secs(number(times, 0));
        let received = Moment::from_secs(number(times, 1));
        let initial = corrected_initial_age(&headers, asked, received);
        let age = current_age(initial, received, Moment::from_secs(number(times, 2)));
        told.number(u64::from(age));
    }
}

#[test]
fn current_ages(rt: HostRuntime) -> Result<(), Fail> {
    let mut desk = Ages { alloc: rt.alloc() };
    play(&rt, rt.alloc(), &mut desk, ROWS);
    Ok(())
}

const ROWS: &str = "\
    # 4.2.3: resident time
    1000 1000 1000 / -> 0
    1000 1000 1060 / -> 60
    # 4.2.3: response delay
    990 1000 1000 / -> 10
    990 1000 1060 / -> 70
    # 4.2.3 and 5.1: Age
    1000 1000 1000 / Age: 30 -> 30
    1000 1000 1005 / Age: 30 -> 35
    998 1000 1005 / Age: 30 -> 37
    # 5.1: of a list the first member, and what is no number is ignored
    1000 1000 1000 / Age: 30, 60 -> 30
    1000 1000 1000 / Age: 30 | Age: 60 -> 30
    1000 1000 1000 / Age: old -> 0
    1000 1000 1000 / Age: -30 -> 0
    1000 1000 1000 / Age: 30.5 -> 0
    1000 1000 1000 / Age: old, 30 -> 0
    # 4.2.3: apparent age
    1000 1000 1000 / Date: Thu, 01 Jan 1970 00:16:20 GMT -> 20
    1000 1000 1003 / Date: Thu, 01 Jan 1970 00:16:20 GMT -> 23
    1000 1000 1003 / Date: Thu, 01 Jan 1970 00:20:00 GMT -> 3
    1000 1000 1003 / Date: today -> 3
    # 4.2.3: the more of both
    1000 1000 1000 / Date: Thu, 01 Jan 1970 00:16:20 GMT | Age: 30 -> 30
    1000 1000 1000 / Date: Thu, 01 Jan 1970 00:16:20 GMT | Age: 5 -> 20
    995 1000 1010 / Date: Thu, 01 Jan 1970 00:16:20 GMT | Age: 30 -> 45
    # 1.2.2: too large
    1000 1000 1000 / Age: 99999999999 -> 4294967295
    1000 1000 1010 / Age: 4294967295 -> 4294967295
    # a clock that went back
    1000 1000 900 / Age: 30 -> 30
";
