//! A long random script, with the replies that a plain slow reading of what its calls did gives. `bench/random_script.py`, which has
//! nothing of the crates, wrote the rows: 4,000 calls of five requests, and the counts at the end. A call without a reply here is
//! done, and a write without a word writes nothing.
use crate::play::{Limits, play};

#[test]
fn a_random_script(rt: HostRuntime) {
    play(&rt, rt.alloc(), Limits::weight(5), "", SCRIPT);
}

const SCRIPT: &str = r#"
    open 4; open 3; open 0; key 4 c; open 2; key 2 b; open 1; key 1 b; miss 4; key 0 c; write 0 yy last -> WrongCall
    miss 1; key 3 d; key 2 a; look 3 -> NotFound(Some(Write)); miss 3; look 2 -> NotFound(Some(Write)); key 0 a; meta 4
    meta 3; meta 1; purge 2 -> Absent; key 4 c -> WrongCall; begin 1; miss 0; begin 3; write 1 yy
    look 2 -> NotFound(Some(Read)); miss 3 -> WrongCall; key 2 b; begin 4; read 3 -> Pending; end 4
    finish 1 -> Stored { size: 2, evicted: 0 }; open 4; miss 3 -> WrongCall; begin 0 -> WrongCall; open 0 -> WrongCall
    key 4 a; meta 0; finish 3 -> Stored { size: 0, evicted: 0 }; purge 2 -> Purged; miss 4; read 0 -> WrongCall; key 2 d
    begin 3; purge 1 -> WrongCall; miss 2; meta 4; begin 1; meta 2; begin 0; read 4 -> WrongCall; begin 2; write 3 x
    end 1; begin 0 -> WrongCall; end 4; finish 2 -> Stored { size: 0, evicted: 0 }; open 1; write 3 x; key 1 b; end 3
    finish 0 -> Stored { size: 0, evicted: 0 }; end 0; begin 2; look 1 -> NotFound(Some(Write))
    look 1 -> NotFound(Some(Read)); open 4; open 3; open 0; key 0 b; write 2 x last; key 4 a; miss 4; key 3 b
    look 3 -> NotFound(Some(Write)); look 3 -> NotFound(Some(Read)); miss 1; meta 4; miss 3; write 2 zzz -> WrongCall
    read 2 -> Data(b"x"); meta 3; begin 3; miss 0; miss 2 -> WrongCall; write 2 x last -> WrongCall
    finish 2 -> Stored { size: 1, evicted: 0 }; begin 4; meta 1; meta 0; write 4 zzz; end 4; open 3 -> WrongCall
    look 2 -> WrongCall; finish 3 -> Stored { size: 0, evicted: 0 }; begin 3; read 3 -> Pending; write 3 x last
    read 1 -> WrongCall; begin 2; read 1 -> WrongCall; finish 2 -> Stored { size: 0, evicted: 0 }
    finish 3 -> Stored { size: 1, evicted: 0 }; begin 0; begin 2; begin 3; finish 0 -> Stored { size: 0, evicted: 0 }
    read 3 -> Pending; end 3; open 3; begin 0; begin 1; finish 2 -> Stored { size: 0, evicted: 0 }; key 3 b
    begin 3 -> WrongCall; write 1 yy last; finish 1 -> Stored { size: 2, evicted: 0 }; read 4 -> WrongCall
    begin 4 -> WrongCall; look 3 -> Part; begin 1; open 4; found 3 force_miss -> Taken(CacheKey, Some(Write))
    read 0 -> Pending; end 2; finish 0 -> Stored { size: 0, evicted: 0 }; begin 0; key 4 b; end 1; purge 4 -> Purged
    open 2; finish 0 -> Refused(WriteRemoved); meta 4 -> WrongCall; open 1; miss 4; look 3 -> NotFound(Some(Read))
    finish 1 -> WrongCall; end 0; meta 4; read 1 -> WrongCall; open 0; key 0 d; look 3 -> NotFound(Some(Write)); key 2 d
    look 2 -> Hit(0); miss 2; meta 2; begin 2; write 2 x; key 4 d -> WrongCall; begin 2 -> WrongCall; miss 0; meta 0
    read 4 -> WrongCall; finish 2 -> Stored { size: 1, evicted: 0 }; begin 4; key 1 d; purge 3 -> Purged; begin 2
    write 4 zzz; write 4 zzz; meta 3 -> WrongCall; miss 1; write 2 x last; begin 0; write 4; write 4 x
    finish 2 -> Stored { size: 1, evicted: 4 }; write 4 x; write 0 zzz last; meta 1; end 0; end 4
    look 3 -> NotFound(Some(Read)); open 0; begin 1; look 3 -> NotFound(Some(Write)); look 3 -> NotFound(Some(Read))
    end 1; open 4; open 1; key 4 c; look 3 -> NotFound(Some(Write)); key 0 c; miss 4; read 2 -> Data(b"x"); key 1 a
    read 4 -> WrongCall; read 2 -> Finished; miss 0; meta 4; meta 0; miss 3; end 0; open 0; key 0 b; meta 3; begin 3
    begin 2; look 1 -> NotFound(Some(Write)); read 2 -> Pending; end 4; read 1 -> WrongCall; begin 3 -> WrongCall
    read 3 -> Pending; look 1 -> NotFound(Some(Read)); end 3; open 3; read 2 -> Pending; write 3 zzz -> WrongCall
    key 2 a -> WrongCall; key 1 c; end 3; open 3; key 3 b; look 1 -> NotFound(Some(Write)); write 1  last -> WrongCall
    meta 3 -> WrongCall; open 4; miss 3; look 1 -> NotFound(Some(Read)); read 2 -> Pending; key 4 a; write 2 x
    write 2 x last; meta 3; look 0 -> NotFound(Some(Write)); purge 1 -> Absent; look 4 -> NotFound(Some(Write))
    look 0 -> NotFound(Some(Read)); miss 0; look 1 -> NotFound(Some(Write)); read 2 -> Data(b"xx")
    look 1 -> NotFound(Some(Read)); open 4 -> WrongCall; open 2 -> WrongCall; write 2 yy -> WrongCall
    write 2 yy last -> WrongCall; found 2 fresh -> WrongCall; read 2 -> Finished; begin 3
    finish 2 -> Stored { size: 2, evicted: 6 }; begin 2; miss 4; miss 1; read 2 -> Pending
    finish 3 -> Stored { size: 0, evicted: 0 }; write 2 zzz; meta 4; finish 2 -> Stored { size: 3, evicted: 2 }; meta 0
    begin 2; end 4; meta 1; read 0 -> WrongCall; finish 0 -> Nothing; begin 1
    finish 1 -> Stored { size: 0, evicted: 0 }; end 3; open 3; finish 2 -> Stored { size: 0, evicted: 0 }; begin 0
    begin 1; write 1 zzz; key 3 b; open 4; look 3 -> Part; finish 1 -> Stored { size: 3, evicted: 3 }; begin 2; key 4 d
    read 2 -> Pending; end 2; look 4 -> Hit(0); begin 1; end 2 -> WrongCall; write 0 x; write 0 zzz; end 3; write 0 yy
    open 2; finish 0 -> Stored { size: 6, evicted: 4 }; key 2 c; read 0 -> Data(b"xzzzyy"); begin 0
    finish 0 -> Stored { size: 0, evicted: 0 }; write 1 yy; open 3; finish 1 -> Stored { size: 2, evicted: 0 }
    look 4 -> NotFound(Some(Write)); read 0 -> Finished; begin 0; key 3 c; purge 3 -> Purged
    look 3 -> NotFound(Some(Write)); miss 3; write 0; look 4 -> NotFound(Some(Read)); meta 3; read 1 -> Data(b"yy")
    look 4 -> NotFound(Some(Write)); read 1 -> Finished; purge 4 -> Absent; write 0  last; read 3 -> WrongCall
    write 0 zzz -> WrongCall; finish 0 -> Stored { size: 0, evicted: 0 }; end 3; miss 4; begin 0; meta 4; open 3; end 0
    open 3 -> WrongCall; begin 1; write 1  last; begin 4; key 3 d; finish 4 -> Stored { size: 0, evicted: 0 }
    look 2 -> Part; read 4 -> Finished; look 3 -> Hit(0); miss 3; miss 2; open 0; meta 2; begin 4; meta 3
    read 1 -> Finished; write 1  last -> WrongCall; write 1 zzz last -> WrongCall; write 4 zzz last
    finish 1 -> Stored { size: 0, evicted: 0 }; begin 1; end 2; open 2; read 3 -> WrongCall; read 4 -> Data(b"zzz")
    begin 3; key 0 d; read 1 -> Pending; key 0 a; miss 0; meta 0; write 3 yy; read 0 -> WrongCall; write 3 x last
    key 2 d; end 0; finish 3 -> Stored { size: 3, evicted: 0 }; end 3; open 3; key 2 b; key 3 a; write 1 zzz; open 0
    write 4 -> WrongCall; key 0 d; write 4  last -> WrongCall; miss 2; meta 2; meta 4; miss 0; end 3; meta 0; end 0
    open 0; found 3 fresh -> WrongCall; write 1 zzz; finish 1 -> Stored { size: 6, evicted: 6 }; end 1; open 1; key 1 b
    purge 1 -> Absent; begin 2; key 0 d; finish 2 -> Stored { size: 0, evicted: 0 }; look 1 -> Hit(0); purge 0 -> Purged
    found 1 fresh -> Taken(Hit, None); look 3 -> WrongCall; finish 4 -> Refused(WriteRemoved); begin 4; end 1; begin 2
    finish 2 -> Stored { size: 0, evicted: 0 }; finish 4 -> Stored { size: 0, evicted: 0 }; open 1; look 0 -> Hit(0)
    begin 2; read 2 -> Pending; read 2 -> Pending; read 2 -> Pending; read 2 -> Pending; open 3; write 2 zzz
    found 0 fresh -> Taken(Hit, None); read 0 -> Data(b""); end 0; write 2; open 0
    finish 2 -> Stored { size: 3, evicted: 0 }; begin 4; write 4 zzz; key 0 d; key 1 a; read 4 -> Data(b"zzz")
    purge 0 -> Purged; look 1 -> NotFound(Some(Write)); key 1 c; write 4 zzz last; begin 2; write 2 x; key 0 c; key 3 d
    key 3 a; finish 1 -> WrongCall; finish 2 -> Stored { size: 1, evicted: 0 }; key 1 b; miss 3
    look 0 -> NotFound(Some(Write)); write 4 zzz -> WrongCall; meta 3; begin 3; read 3 -> Pending
    look 0 -> NotFound(Some(Read)); read 4 -> Data(b"zzz"); miss 1; open 3 -> WrongCall
    finish 4 -> Refused(WriteRemoved); begin 4; write 4 yy; begin 2; look 0 -> NotFound(Some(Write))
    finish 4 -> Stored { size: 2, evicted: 3 }; read 4 -> Data(b"yy"); end 2; read 3 -> Pending; open 2; end 4
    finish 3 -> Stored { size: 0, evicted: 0 }; meta 1; key 0 b; end 3; begin 0 -> WrongCall; open 3; key 2 c; begin 1
    write 1 yy; miss 2; write 1; look 0 -> Part; open 4; open 2 -> WrongCall; meta 2; key 3 a; end 1; look 3 -> Hit(0)
    begin 2; open 1; key 1 c; look 1 -> Part; miss 1; meta 1; miss 0; key 4 a
    finish 2 -> Stored { size: 0, evicted: 0 }; end 1; found 3 fresh -> Taken(Hit, None); read 3 -> Data(b""); meta 0
    begin 2; key 3 d -> WrongCall; open 1; key 1 a; read 3 -> Finished; end 3; read 0 -> WrongCall; write 3 -> WrongCall
    write 2 yy; open 3; key 3 b; look 1 -> Hit(0); end 0; finish 2 -> Stored { size: 2, evicted: 0 }; miss 4; meta 4
    found 1 fresh -> Taken(Hit, None); read 1 -> Data(b""); miss 3; begin 4; open 0; write 0  last -> WrongCall; end 2
    open 2; meta 3; key 0 c; end 4; begin 3; begin 1 -> WrongCall; miss 0; key 2 a; end 1; open 4; key 4 c; open 1
    meta 0; miss 2; key 4 b; miss 4; key 1 a; begin 0; write 3 x; write 3 yy; meta 2; miss 1; meta 4; read 0 -> Pending
    meta 1; end 0; begin 2; read 3 -> Data(b"xyy"); finish 3 -> Stored { size: 3, evicted: 2 }; begin 3
    finish 2 -> Stored { size: 0, evicted: 0 }; found 2 force_miss -> WrongCall; begin 2; begin 1; end 4
    finish 2 -> Stored { size: 0, evicted: 0 }; read 3 -> Pending; open 0; end 2; key 0 b
    finish 3 -> Stored { size: 0, evicted: 0 }; miss 0; open 4; meta 0; read 3 -> Finished; key 4 d; write 1
    finish 1 -> Stored { size: 0, evicted: 0 }; open 2; begin 0; found 1 fresh -> WrongCall; meta 2 -> WrongCall
    read 1 -> Finished; key 4 b; write 0 yy; look 4 -> Part; key 2 b; begin 3; end 1
    found 4 force_miss -> Taken(CacheKey, Some(Write)); finish 3 -> Stored { size: 0, evicted: 0 }; look 2 -> Part
    look 4 -> Part; miss 4; meta 4; open 1; miss 2; key 1 b; meta 2; look 1 -> Part
    finish 0 -> Stored { size: 2, evicted: 2 }; look 1 -> Hit(2); begin 3; found 1 fresh -> Taken(Hit, None); end 1
    read 3 -> Pending; read 2 -> WrongCall; end 3; open 3; begin 4; open 1; finish 4 -> Stored { size: 0, evicted: 0 }
    read 4 -> Finished; key 1 c; key 1 d; write 2 x -> WrongCall; end 4; begin 0; miss 1; open 4; key 4 b
    purge 4 -> Purged; meta 1; end 0; look 4 -> NotFound(Some(Write)); key 3 d; purge 4 -> Absent; end 2; begin 1
    write 3  last -> WrongCall; open 0; miss 3; read 1 -> Pending; meta 3; open 2; key 0 b; key 2 a
    look 4 -> NotFound(Some(Read)); look 0 -> NotFound(Some(Write)); look 4 -> NotFound(Some(Read)); miss 0; miss 4
    write 1; miss 3 -> WrongCall; miss 2; meta 0; meta 2; meta 2; begin 0; read 0 -> Pending; end 3; meta 4; write 1 x
    open 3; key 3 a; finish 1 -> Stored { size: 1, evicted: 2 }; end 2; look 3 -> Hit(0); meta 4; begin 1; write 1  last
    write 0 yy; open 2; begin 4; read 1 -> Finished; write 1 x -> WrongCall; begin 0 -> WrongCall; key 2 b; end 4
    key 2 b; open 4; finish 3 -> WrongCall; key 4 c; write 0 x; end 0; look 3 -> Hit(0); open 0
    found 3 force_miss -> Taken(CacheKey, Some(Write)); miss 3; end 1; open 1; key 4 a; look 4 -> Hit(0); key 1 c
    key 0 a; found 4 expired -> Taken(Stale, Some(Read)); purge 2 -> Absent; look 0 -> Hit(0); key 2 c
    look 2 -> NotFound(Some(Write)); miss 0; meta 3; meta 0; look 2 -> NotFound(Some(Read)); miss 1
    look 2 -> NotFound(Some(Write)); meta 1; begin 1; end 0; write 1 x last; read 4 -> Data(b""); look 2 -> Part
    read 3 -> WrongCall; begin 3; write 1 x -> WrongCall; found 2 expired -> Taken(Stale, Some(Read))
    found 0 fresh -> WrongCall; end 3; key 3 d -> WrongCall; look 2 -> Part; open 3; key 3 d; look 3 -> Hit(1)
    open 4 -> WrongCall; open 0; read 2 -> Data(b"x"); meta 4; key 0 a; miss 4 -> WrongCall; look 0 -> Hit(0)
    found 0 fresh -> Taken(Hit, None); end 4; miss 2; found 3 expired -> Taken(Stale, Some(Write)); open 4; meta 2
    end 1; meta 3; begin 2; read 0 -> Data(b""); read 2 -> Pending; read 0 -> Finished; key 4 a; write 3 x -> WrongCall
    read 0 -> Finished; end 3; read 0 -> Finished; look 0 -> WrongCall; end 0; open 0; purge 2 -> WrongCall; key 0 b
    miss 0; meta 0; read 2 -> Pending; open 1; purge 4 -> Purged; key 1 d; purge 1 -> Purged; begin 0; write 2
    look 4 -> NotFound(Some(Write)); key 1 c; key 1 d; end 0; look 1 -> NotFound(Some(Write))
    look 1 -> NotFound(Some(Read)); open 0; look 4 -> NotFound(Some(Read)); look 2 -> WrongCall; open 3; key 0 c
    finish 2 -> Stored { size: 0, evicted: 0 }; miss 4; meta 4; read 2 -> Finished; end 4; open 4; begin 2; key 4 c
    miss 0; miss 2 -> WrongCall; miss 1; look 4 -> Part; end 2; open 2; key 3 d; open 1 -> WrongCall
    purge 2 -> WrongCall; look 3 -> NotFound(Some(Write)); key 2 b; miss 3; meta 3; found 4 fresh -> Taken(Hit, None)
    meta 1; miss 2; read 4 -> Finished; meta 0; read 4 -> Finished; end 1; read 3 -> WrongCall; read 4 -> Finished
    look 0 -> WrongCall; begin 0; begin 3; open 1; meta 2; key 1 c; miss 1; meta 1; read 4 -> Finished; end 4; end 0
    begin 2; open 0; read 3 -> Pending; read 2 -> Pending; read 2 -> Pending; end 1
    finish 3 -> Stored { size: 0, evicted: 0 }; begin 3; read 3 -> Pending; open 4; open 1; key 1 a; write 2 zzz last
    read 2 -> Data(b"zzz"); key 1 d; miss 1; meta 1; write 2 zzz -> WrongCall; key 4 a; miss 4; end 2; begin 1; end 3
    open 2; key 2 a; key 0 c; meta 4; open 3; begin 0 -> WrongCall; miss 2; begin 4; key 3 d; finish 2 -> Nothing
    look 0 -> Hit(0); finish 1 -> Stored { size: 0, evicted: 0 }; read 4 -> Pending; read 4 -> Pending
    read 2 -> WrongCall; look 0 -> Hit(0); meta 2; read 1 -> Finished; begin 1
    finish 1 -> Stored { size: 0, evicted: 0 }; look 3 -> Hit(0); finish 4 -> Stored { size: 0, evicted: 0 }; begin 4
    begin 1; found 0 fresh -> Taken(Hit, None); begin 2; found 3 fresh -> Taken(Hit, None); read 0 -> Data(b""); end 0
    write 4  last; read 3 -> Data(b""); write 2 x; finish 2 -> Stored { size: 1, evicted: 0 }; read 4 -> Finished
    open 0; end 3; finish 1 -> Stored { size: 0, evicted: 0 }; write 4 x -> WrongCall; begin 2; begin 1; open 3; key 0 b
    key 3 a; finish 2 -> Stored { size: 0, evicted: 0 }; write 4 zzz -> WrongCall; look 3 -> Part; write 1 yy
    read 1 -> Data(b"yy"); end 1; end 2; write 4 -> WrongCall; miss 0; read 4 -> Finished; open 1
    write 4 yy last -> WrongCall; key 1 c; miss 1; meta 0; meta 1; open 2; read 0 -> WrongCall; read 0 -> WrongCall
    found 4 fresh -> WrongCall; begin 0; end 1; open 1; key 1 d; look 3 -> Part; end 0; purge 4 -> WrongCall
    look 0 -> WrongCall; look 4 -> WrongCall; key 2 c; open 0; look 1 -> Hit(0); found 3 fresh -> Taken(Hit, None)
    end 4; open 4; key 4 d; found 1 expired -> Taken(Stale, Some(Write)); read 2 -> WrongCall
    found 1 fresh -> WrongCall; meta 4 -> WrongCall; found 1 fresh -> WrongCall; key 0 c; end 3; look 0 -> Hit(0)
    meta 2 -> WrongCall; found 0 fresh -> Taken(Hit, None); read 3 -> WrongCall; read 0 -> Data(b""); open 3; key 4 b
    found 1 expired -> WrongCall; found 1 fresh -> WrongCall; miss 2; key 3 c; miss 3; look 4 -> NotFound(Some(Write))
    miss 1; look 4 -> NotFound(Some(Read)); read 0 -> Finished; end 2; end 0; meta 3; miss 4; begin 3; meta 1; open 2
    key 2 b; end 1; write 3 yy; purge 2 -> Absent; write 1 yy -> WrongCall; open 1; key 1 b; purge 2 -> Absent
    end 0 -> WrongCall; miss 1; meta 4; purge 2 -> Absent; miss 2; read 3 -> Data(b"yy"); meta 1; read 4 -> WrongCall
    begin 4; finish 3 -> Stored { size: 2, evicted: 0 }; open 0; key 0 b; begin 3; write 4 yy; end 3
    finish 4 -> Stored { size: 2, evicted: 5 }; meta 2; end 4; open 3; open 4; key 3 c; begin 1; begin 2; key 4 b; end 4
    open 4; miss 0; meta 0; finish 4 -> WrongCall; begin 0; finish 1 -> Stored { size: 0, evicted: 0 }
    finish 0 -> Stored { size: 0, evicted: 0 }; write 0 -> WrongCall; purge 3 -> Purged; begin 1; key 1 b -> WrongCall
    key 4 d; write 1  last; read 2 -> Pending; read 0 -> Finished; read 0 -> Finished; miss 3; meta 0
    read 0 -> Finished; meta 3; end 3; open 3; miss 4; begin 0; key 3 a; end 1; meta 4; end 3; write 0 yy
    read 2 -> Pending; open 1; key 1 d; read 2 -> Pending; open 3; key 3 a; key 3 c; purge 3 -> Absent; miss 3
    read 3 -> WrongCall; look 1 -> Hit(0); write 2  last; read 2 -> Finished; found 1 fresh -> Taken(Hit, None); begin 4
    meta 3; look 0 -> WrongCall; read 1 -> Data(b""); end 4; finish 0 -> Stored { size: 2, evicted: 0 }; begin 3; end 0
    write 2 zzz -> WrongCall; read 2 -> Finished; finish 3 -> Stored { size: 0, evicted: 0 }; end 3
    write 2 zzz -> WrongCall; open 4; key 4 d; read 1 -> Finished; end 1; write 2 x -> WrongCall; open 0; key 0 a
    begin 2 -> WrongCall; open 1; key 1 c; key 4 b; look 0 -> Hit(0); look 1 -> Hit(0); look 4 -> Part
    found 0 force_miss -> Taken(CacheKey, Some(Write)); found 1 fresh -> Taken(Hit, None); open 3; read 1 -> Data(b"")
    found 4 expired -> Taken(Stale, Some(Write)); miss 4; meta 4; finish 2 -> Stored { size: 0, evicted: 0 }
    write 0 -> WrongCall; key 3 a; begin 2; read 3 -> WrongCall; begin 4; read 2 -> Pending; end 1; key 3 b; write 4
    finish 4 -> Stored { size: 0, evicted: 0 }; begin 0 -> WrongCall; open 1; begin 4; key 1 c; miss 3; write 4 yy
    meta 3; read 3 -> WrongCall; read 4 -> Data(b"yy"); write 3 zzz last -> WrongCall; begin 3; look 0 -> Hit(0)
    write 2; look 1 -> Hit(0); look 1 -> Hit(0); write 4 x; finish 4 -> Stored { size: 3, evicted: 8 }; write 3 x
    miss 4 -> WrongCall; read 2 -> Pending; read 2 -> Pending; write 3  last; purge 2 -> WrongCall; end 1
    read 2 -> Pending; open 1; key 1 d; finish 2 -> Stored { size: 0, evicted: 0 }; end 4; open 4; purge 1 -> Purged
    end 3; look 1 -> NotFound(Some(Write)); key 4 b; look 4 -> Hit(0); miss 1; begin 2
    found 4 force_miss -> Taken(CacheKey, Some(Write)); open 3; finish 2 -> Stored { size: 0, evicted: 0 }; meta 1
    purge 4 -> Purged; write 2 yy last -> WrongCall; begin 2; miss 4; end 1; key 3 c
    finish 2 -> Stored { size: 0, evicted: 0 }; found 0 fresh -> Taken(Hit, None); look 3 -> Hit(0); begin 2
    meta 3 -> WrongCall; read 2 -> Pending; end 0; open 1; found 4 fresh -> WrongCall; open 0
    finish 2 -> Stored { size: 0, evicted: 0 }; meta 4; key 0 a; begin 4; write 4 x last; key 1 d; begin 2
    read 2 -> Pending; found 3 fresh -> Taken(Hit, None); read 4 -> Data(b"x"); purge 0 -> Absent
    finish 2 -> Stored { size: 0, evicted: 0 }; open 4 -> WrongCall; open 1 -> WrongCall; purge 1 -> Absent; key 1 c
    look 0 -> NotFound(Some(Write)); read 4 -> Finished; look 0 -> NotFound(Some(Read)); write 4 zzz last -> WrongCall
    read 3 -> Data(b""); end 4; miss 0; end 2; meta 0; open 4; key 4 d; begin 0; miss 4; look 4 -> WrongCall; open 2
    key 2 d; meta 4; begin 4; write 0; write 4 x last; look 2 -> Part; miss 2; read 4 -> Data(b"x"); look 1 -> Hit(0)
    write 0 yy; finish 0 -> Stored { size: 2, evicted: 3 }; end 3; meta 2; open 3; end 0; read 4 -> Finished; key 3 a
    read 2 -> WrongCall; read 4 -> Finished; write 0 zzz last -> WrongCall; read 4 -> Finished; miss 1; miss 3; meta 1
    meta 3; open 0; key 2 b -> WrongCall; key 0 d; begin 1; begin 3; end 2; end 3; open 3; write 0 x -> WrongCall
    open 2; write 2 x -> WrongCall; meta 4; key 3 a; read 4 -> Finished; look 3 -> Hit(2); end 1; look 0 -> Part
    read 4 -> Finished; read 4 -> Finished; found 0 expired -> Taken(Stale, Some(Write)); open 1
    write 4 yy -> WrongCall; key 2 d; found 3 fresh -> Taken(Hit, None); read 0 -> Data(b"x"); read 0 -> Finished
    key 1 c; finish 4 -> Stored { size: 1, evicted: 3 }; write 1 yy last -> WrongCall; read 3 -> Data(b"yy")
    read 0 -> Finished; begin 4; meta 0; purge 1 -> Purged; end 0; purge 2 -> Purged; key 1 a; read 3 -> Finished
    found 0 fresh -> WrongCall; read 3 -> Finished; write 4 x last; open 0; key 0 b; read 3 -> Finished
    look 1 -> Hit(2); key 3 d -> WrongCall; miss 1; look 2 -> NotFound(Some(Write)); look 1 -> WrongCall
    finish 4 -> Refused(WriteRemoved); end 3; miss 0; key 2 b; begin 4; read 4 -> Pending; meta 0; key 2 d; open 3
    begin 0; look 2 -> Part; key 3 a; finish 0 -> Stored { size: 0, evicted: 0 }; meta 1; read 0 -> Finished; begin 0
    finish 0 -> Stored { size: 0, evicted: 0 }; read 1 -> WrongCall; look 3 -> Hit(2); look 3 -> Hit(2); begin 1
    write 4 x; begin 0; open 1 -> WrongCall; found 3 fresh -> Taken(Hit, None); read 3 -> Data(b"yy"); end 3
    write 0  last; write 4 yy; finish 4 -> Stored { size: 3, evicted: 0 }; read 2 -> WrongCall; begin 4
    write 0 yy -> WrongCall; read 1 -> Pending; open 3; write 4; key 3 b; found 2 fresh -> Taken(Hit, None)
    read 2 -> Data(b"xyy"); write 3 zzz -> WrongCall; key 2 a -> WrongCall; look 3 -> Part
    finish 4 -> Stored { size: 0, evicted: 0 }; begin 4; found 3 expired -> Taken(Stale, Some(Write)); read 4 -> Pending
    finish 4 -> Stored { size: 0, evicted: 0 }; read 2 -> Finished; finish 0 -> Stored { size: 0, evicted: 0 }; end 1
    begin 0; begin 4; open 1; end 2; end 4; open 2; open 4; finish 0 -> Stored { size: 0, evicted: 0 }
    write 0  last -> WrongCall; found 3 fresh -> WrongCall; write 2 x -> WrongCall; open 4 -> WrongCall; begin 0
    purge 0 -> WrongCall; key 4 b; found 0 expired -> WrongCall; write 0 x last; key 2 a; open 3 -> WrongCall
    look 2 -> Hit(2); meta 3; meta 1 -> WrongCall; read 0 -> Data(b"x"); key 1 a
    finish 0 -> Stored { size: 1, evicted: 8 }; begin 3; read 0 -> Finished; look 2 -> NotFound(Some(Write))
    look 1 -> NotFound(Some(Read)); meta 1 -> WrongCall; look 1 -> NotFound(Some(Read)); begin 1 -> WrongCall
    finish 3 -> Stored { size: 0, evicted: 0 }; begin 0; miss 2; read 1 -> WrongCall; write 0 x last; begin 3
    read 0 -> Data(b"x"); miss 1; meta 2; meta 1; miss 4; read 1 -> WrongCall; begin 2; read 2 -> Pending
    begin 4 -> WrongCall; meta 4; read 4 -> WrongCall; read 2 -> Pending; begin 4; write 3  last
    finish 3 -> Stored { size: 0, evicted: 0 }; end 3; read 0 -> Finished; write 0 yy last -> WrongCall; write 4 yy
    begin 1; key 1 c -> WrongCall; read 0 -> Finished; finish 4 -> Stored { size: 2, evicted: 1 }; open 3; write 1 zzz
    finish 2 -> Stored { size: 0, evicted: 0 }; write 1; begin 2; write 1 zzz; purge 4 -> WrongCall; begin 4; key 3 d
    write 1 zzz; purge 3 -> Purged; write 2 yy; write 0  last -> WrongCall; read 2 -> Data(b"yy")
    finish 1 -> Stored { size: 9, evicted: 9 }; miss 3; begin 1; write 0 x -> WrongCall; read 4 -> Pending
    write 4 zzz last; write 0 zzz -> WrongCall; write 2 x; read 1 -> Pending; meta 3; end 1
    write 0 zzz last -> WrongCall; begin 3; finish 2 -> Stored { size: 3, evicted: 0 }; begin 1 -> WrongCall
    finish 3 -> Stored { size: 0, evicted: 0 }; open 1; begin 1 -> WrongCall; look 4 -> WrongCall; read 2 -> Data(b"x")
    key 1 b; end 4; open 4; write 1 yy -> WrongCall; begin 2; purge 1 -> Purged; end 3; meta 0
    look 1 -> NotFound(Some(Write)); finish 4 -> WrongCall; open 3; key 3 c; write 2 yy; read 2 -> Data(b"yy"); key 3 c
    key 4 d; write 2 zzz; look 1 -> NotFound(Some(Read)); write 2 zzz last; finish 0 -> Refused(WriteRemoved); miss 1
    read 2 -> Data(b"zzzzzz"); found 4 expired -> WrongCall; look 3 -> NotFound(Some(Write))
    look 3 -> NotFound(Some(Read)); miss 4; begin 3 -> WrongCall; meta 4; read 0 -> Finished; read 4 -> WrongCall
    begin 4; end 4; meta 1; write 0 x -> WrongCall; finish 2 -> Stored { size: 8, evicted: 3 }; end 0
    look 3 -> NotFound(Some(Write)); begin 1; begin 2; write 1 zzz last; end 1; open 1; purge 4 -> WrongCall
    finish 2 -> Stored { size: 0, evicted: 0 }; open 0; begin 2; finish 2 -> Stored { size: 0, evicted: 0 }; key 1 d
    open 4; key 0 b; key 4 c; end 2; miss 4; look 3 -> NotFound(Some(Read)); miss 4 -> WrongCall; write 1 -> WrongCall
    look 0 -> NotFound(Some(Write)); key 3 d; miss 0; miss 1; meta 4; meta 1; open 2; begin 1; meta 0; end 4; begin 0
    key 2 a; open 4; look 3 -> Part; miss 2; meta 2; found 1 fresh -> WrongCall; key 4 b; miss 4; begin 2
    found 3 fresh -> Taken(Hit, None); write 0 zzz; meta 4; write 0 x; read 3 -> Pending; read 3 -> Pending
    read 1 -> Pending; key 4 c -> WrongCall; begin 2 -> WrongCall; finish 2 -> Stored { size: 0, evicted: 0 }
    read 3 -> Pending; read 3 -> Pending; read 3 -> Pending; begin 4; write 4 x last; read 3 -> Pending
    read 3 -> Pending; read 2 -> Finished; write 1 x; write 4 yy -> WrongCall; read 1 -> Data(b"x"); write 1 zzz
    read 3 -> Data(b"xzzz"); finish 1 -> Stored { size: 4, evicted: 0 }; read 3 -> Finished
    finish 4 -> Stored { size: 1, evicted: 0 }; finish 0 -> Stored { size: 4, evicted: 4 }; read 3 -> Finished
    read 3 -> Finished; begin 2; begin 0; read 3 -> Finished; write 0 x; read 3 -> Finished; begin 1
    write 3 yy -> WrongCall; key 1 d -> WrongCall; begin 4; miss 3 -> WrongCall
    finish 4 -> Stored { size: 0, evicted: 0 }; end 1; read 2 -> Pending; read 0 -> Data(b"x"); begin 4
    read 3 -> Finished; finish 4 -> Stored { size: 0, evicted: 0 }; read 4 -> Finished; write 2 x last
    read 3 -> Finished; read 3 -> Finished; write 2  last -> WrongCall; open 1; end 2; begin 4; write 0  last
    read 4 -> Pending; read 3 -> Finished; key 1 d; meta 1 -> WrongCall; end 0; open 0; read 3 -> Finished
    finish 2 -> WrongCall; look 1 -> NotFound(Some(Write)); open 2; look 1 -> NotFound(Some(Read)); miss 1
    look 3 -> WrongCall; finish 4 -> Stored { size: 0, evicted: 0 }; key 2 d; read 3 -> Finished; meta 1; end 1; end 3
    key 0 c; look 3 -> WrongCall; miss 0; meta 0; open 1; open 3; read 4 -> Finished; miss 2; miss 3 -> WrongCall
    begin 0; write 0 yy; write 0; read 4 -> Finished; key 1 a; meta 2; begin 4; key 3 d; look 3 -> NotFound(Some(Write))
    purge 1 -> Absent; read 4 -> Pending; key 1 c; finish 0 -> Stored { size: 2, evicted: 2 }; miss 3; write 4 x; meta 3
    read 1 -> WrongCall; end 0; begin 2; look 1 -> Hit(2); open 0; write 4 zzz; write 2 zzz last
    write 2  last -> WrongCall; write 2 x last -> WrongCall; key 0 b; write 2 zzz -> WrongCall; write 4 yy
    purge 0 -> Purged; key 1 d; miss 1; miss 0; meta 1; begin 1; finish 1 -> Stored { size: 0, evicted: 0 }; begin 1
    end 4; read 2 -> Data(b"zzz"); open 4; begin 3; read 2 -> Finished; write 3; end 2; read 3 -> Pending; open 2
    meta 0; key 2 b; miss 2; write 3 zzz last; write 1 yy last; finish 1 -> Stored { size: 2, evicted: 0 }; begin 0
    begin 1; finish 3 -> Stored { size: 3, evicted: 3 }; key 4 b; meta 2; read 2 -> WrongCall; key 4 d
    found 3 fresh -> WrongCall; begin 3; key 4 c; begin 2; look 4 -> NotFound(Some(Write)); miss 4
    finish 1 -> Stored { size: 0, evicted: 0 }; begin 1; write 2 zzz; write 1 zzz; write 2 zzz; meta 4; write 1 zzz
    end 4; open 4; write 2 x; finish 2 -> Stored { size: 7, evicted: 5 }; write 0 yy; miss 1 -> WrongCall; key 4 a
    write 1 zzz; read 0 -> Data(b"yy"); write 1; begin 2; write 3 zzz last; finish 2 -> Stored { size: 0, evicted: 0 }
    look 4 -> NotFound(Some(Write)); look 4 -> NotFound(Some(Read)); write 0 yy; write 3 yy last -> WrongCall; begin 2
    write 0; read 2 -> Pending; end 0; finish 0 -> WrongCall; end 3; look 4 -> NotFound(Some(Write)); open 0; key 0 b
    look 4 -> NotFound(Some(Read)); finish 2 -> Stored { size: 0, evicted: 0 }; end 2; finish 4 -> WrongCall; open 3
    read 1 -> Data(b"zzzzzzzzz"); key 0 b; look 4 -> NotFound(Some(Write)); miss 4; look 0 -> Hit(0)
    found 0 fresh -> Taken(Hit, None); read 0 -> Data(b""); meta 4; open 2; key 3 d; write 1 x
    finish 1 -> Stored { size: 10, evicted: 3 }; read 1 -> Data(b"x"); begin 4; read 0 -> Finished; miss 3
    finish 4 -> Stored { size: 0, evicted: 0 }; meta 3; read 0 -> Finished; read 0 -> Finished; end 0; begin 3; open 0
    key 2 a; write 0 -> WrongCall; write 3; write 3 x; begin 4; finish 4 -> Stored { size: 0, evicted: 0 }; key 0 c
    begin 1; read 1 -> Pending; miss 2; meta 2; read 2 -> WrongCall; write 3 yy last; end 2; write 1 yy; begin 4
    read 1 -> Data(b"yy"); miss 0; write 3 yy last -> WrongCall; open 2; meta 0; write 3 -> WrongCall; write 1 zzz
    write 4 x; key 2 b; write 1; read 4 -> Data(b"x"); read 3 -> Data(b"xyy"); key 2 a; write 3 x last -> WrongCall
    meta 1; miss 2; meta 2; begin 2; read 3 -> Finished; read 2 -> Pending; read 3 -> Finished; write 2 x last
    finish 3 -> Stored { size: 3, evicted: 0 }; write 3 x -> WrongCall; begin 3; read 2 -> Data(b"x"); end 3; write 4 yy
    read 1 -> Data(b"zzz"); begin 0; open 3; end 3; write 4 x; write 0  last; finish 4 -> Stored { size: 4, evicted: 3 }
    begin 4; write 0 yy -> WrongCall; open 3; key 3 b; read 4 -> Pending; finish 0 -> Stored { size: 0, evicted: 0 }
    end 0; purge 3 -> Absent; write 1 x; open 0; read 1 -> Data(b"x"); look 3 -> NotFound(Some(Write))
    read 2 -> Finished; write 2 zzz -> WrongCall; look 3 -> NotFound(Some(Read)); write 2 yy -> WrongCall
    write 2 yy -> WrongCall; write 2 zzz -> WrongCall; end 4; finish 2 -> Stored { size: 1, evicted: 0 }; write 1 zzz
    end 1; read 2 -> Finished; open 1; look 3 -> NotFound(Some(Write)); purge 3 -> Absent; key 1 b; begin 2; key 0 d
    key 1 d; purge 0 -> Absent; end 2; look 0 -> NotFound(Some(Write)); open 2; key 2 d; look 2 -> NotFound(Some(Read))
    look 1 -> NotFound(Some(Read)); look 1 -> NotFound(Some(Read)); open 4; purge 0 -> Absent
    look 1 -> NotFound(Some(Read)); key 4 b; look 2 -> NotFound(Some(Read)); finish 3 -> WrongCall
    look 4 -> NotFound(Some(Read)); look 3 -> NotFound(Some(Read)); look 0 -> NotFound(Some(Read)); key 2 a
    look 2 -> Hit(1); look 4 -> NotFound(Some(Write)); end 3; begin 0 -> WrongCall
    found 2 expired -> Taken(Stale, Some(Write)); purge 4 -> Absent; miss 0; look 1 -> NotFound(Some(Write)); open 3
    meta 0; look 2 -> Hit(1); read 0 -> WrongCall; purge 4 -> Absent; purge 1 -> Absent; miss 1; meta 1; miss 2
    meta 4 -> WrongCall; begin 1; read 1 -> Pending; end 1; found 1 force_miss -> WrongCall; key 3 b; miss 4; meta 4
    meta 2; begin 2; look 3 -> NotFound(Some(Read)); look 3 -> NotFound(Some(Read)); open 1; read 0 -> WrongCall; miss 3
    finish 1 -> WrongCall; key 1 c; read 2 -> Pending; meta 3; read 3 -> WrongCall; miss 1; look 4 -> WrongCall; end 0
    read 4 -> WrongCall; write 2; begin 3; open 0; key 0 c; meta 1; write 3 yy; begin 4; write 3 zzz; begin 1
    finish 1 -> Stored { size: 0, evicted: 0 }; finish 4 -> Stored { size: 0, evicted: 0 }; end 1; end 3; open 3
    purge 0 -> Purged; read 4 -> Finished; look 0 -> NotFound(Some(Write)); end 4; look 0 -> NotFound(Some(Read))
    open 4; key 4 b; open 1; write 2  last; key 1 a; begin 2 -> WrongCall; key 3 a; look 0 -> NotFound(Some(Write))
    end 2; look 0 -> NotFound(Some(Read)); miss 0; meta 0; write 2  last -> WrongCall; open 2; look 4 -> Hit(0); key 2 d
    found 4 force_miss -> Taken(CacheKey, Some(Write)); purge 4 -> Purged; purge 1 -> Purged
    look 4 -> NotFound(Some(Read)); look 4 -> NotFound(Some(Write)); purge 3 -> Absent; miss 2
    look 4 -> NotFound(Some(Read)); found 3 fresh -> WrongCall; key 1 d; begin 0; miss 4; miss 3
    look 1 -> NotFound(Some(Write)); write 0 yy; write 0; meta 2; meta 3; purge 0 -> WrongCall; meta 4; key 1 d; miss 1
    write 0 x last; finish 4 -> Nothing; meta 2; meta 1; begin 2; key 3 a -> WrongCall; begin 1; purge 0 -> WrongCall
    begin 4; begin 3; write 3 yy; write 1  last; purge 3 -> WrongCall; finish 4 -> Stored { size: 0, evicted: 0 }
    read 1 -> Finished; write 0 zzz -> WrongCall; read 1 -> Finished; begin 4; end 2; read 3 -> Data(b"yy")
    look 2 -> WrongCall; open 2; begin 0 -> WrongCall; key 2 a; end 0; write 1 -> WrongCall
    finish 3 -> Stored { size: 2, evicted: 1 }; write 1  last -> WrongCall; miss 2; open 0; begin 3; meta 2
    look 3 -> WrongCall; finish 4 -> Stored { size: 0, evicted: 0 }; begin 4; finish 3 -> Stored { size: 0, evicted: 0 }
    key 0 d; finish 1 -> Stored { size: 0, evicted: 0 }; write 4 yy last; read 1 -> Finished; begin 1
    finish 4 -> Stored { size: 2, evicted: 0 }; key 4 d -> WrongCall; miss 0; meta 0; begin 0; end 1; open 1; begin 4
    key 1 b; begin 3; begin 2; write 0  last; write 2  last; look 1 -> Part
    found 1 force_miss -> Taken(CacheKey, Some(Write)); end 2; begin 1 -> WrongCall; look 1 -> Part; write 3
    write 4 zzz last; write 4 yy -> WrongCall; write 3 x; write 0 -> WrongCall; write 4 zzz last -> WrongCall
    finish 4 -> Stored { size: 3, evicted: 3 }; begin 4; finish 4 -> Stored { size: 0, evicted: 0 }
    finish 0 -> Stored { size: 0, evicted: 0 }; found 1 fresh -> Taken(Hit, None); begin 4; begin 0; read 0 -> Pending
    finish 3 -> Stored { size: 1, evicted: 4 }; write 0 yy; read 1 -> Data(b"zzz"); end 0; open 0; key 0 b
    finish 4 -> Stored { size: 0, evicted: 0 }; miss 0; found 4 force_miss -> WrongCall; read 3 -> Data(b"x"); end 1
    begin 3; meta 0; open 2; end 3; begin 4; key 2 a; open 1; purge 2 -> Purged; miss 2; write 3 yy last -> WrongCall
    read 0 -> WrongCall; key 1 b; look 1 -> Part; look 1 -> Part; read 4 -> Pending; begin 0; open 3
    open 0 -> WrongCall; key 3 a; meta 2; look 1 -> Part; key 2 a -> WrongCall; write 4 x; end 4; write 0 zzz
    found 1 force_miss -> Taken(CacheKey, Some(Write)); miss 3; look 1 -> Part; look 1 -> Part; write 1 yy -> WrongCall
    open 4; finish 0 -> Stored { size: 3, evicted: 1 }; begin 0; found 1 fresh -> Taken(Hit, None); key 4 a
    read 0 -> Pending; meta 0; write 0 zzz; meta 3; read 1 -> Data(b"zzz"); miss 3 -> WrongCall; end 1; meta 0
    read 2 -> WrongCall; open 1; begin 3; read 0 -> Data(b"zzz"); write 3 yy; finish 3 -> Stored { size: 2, evicted: 0 }
    end 2; look 4 -> Hit(2); key 1 c; found 4 fresh -> Taken(Hit, None); write 0; read 4 -> Data(b"yy")
    read 4 -> Finished; open 2; finish 0 -> Stored { size: 3, evicted: 4 }; read 4 -> Finished; purge 1 -> Absent
    read 4 -> Finished; end 4; look 1 -> NotFound(Some(Write)); purge 1 -> Absent; begin 0; begin 3; open 4; write 0 yy
    key 4 c; write 3 zzz last; finish 2 -> WrongCall; finish 0 -> Stored { size: 2, evicted: 1 }
    look 4 -> NotFound(Some(Read)); write 3 x last -> WrongCall; write 3 x last -> WrongCall; key 2 d
    write 4 zzz -> WrongCall; miss 4; meta 4; miss 2; end 0; miss 1; meta 1; open 0; begin 1; key 0 b; write 1 yy
    write 3  last -> WrongCall; write 3 yy -> WrongCall; begin 4; meta 2; read 0 -> WrongCall; read 1 -> Data(b"yy")
    finish 4 -> Stored { size: 0, evicted: 0 }; read 4 -> Finished; begin 2; look 0 -> Hit(2); end 4
    found 0 expired -> Taken(Stale, Some(Write)); found 0 fresh -> WrongCall; finish 1 -> Stored { size: 2, evicted: 1 }
    write 3 yy last -> WrongCall; read 0 -> Data(b"yy"); write 2 yy; open 3 -> WrongCall; look 0 -> Hit(2)
    read 3 -> Data(b"zzz"); end 0; write 3 zzz last -> WrongCall; read 3 -> Finished; open 3 -> WrongCall; open 4
    key 1 a -> WrongCall; begin 1; open 0; read 4 -> WrongCall; read 2 -> Data(b"yy"); key 4 a
    finish 2 -> Stored { size: 2, evicted: 2 }; key 0 a; miss 4; purge 0 -> Purged; meta 4; begin 2; write 2 zzz
    begin 4; end 2; finish 3 -> Refused(WriteRemoved); look 0 -> Part; begin 3; read 1 -> Pending; open 2; key 2 b
    read 1 -> Pending; found 3 expired -> WrongCall; found 0 expired -> Taken(Stale, Some(Write)); meta 0
    read 1 -> Pending; begin 0; key 1 c -> WrongCall; write 3 zzz; finish 0 -> Stored { size: 0, evicted: 0 }
    read 1 -> Pending; read 0 -> Finished; begin 0; read 1 -> Pending; end 4; open 4; begin 3 -> WrongCall; key 4 c
    read 0 -> Pending; finish 3 -> Stored { size: 3, evicted: 1 }; read 0 -> Pending; look 4 -> Part; look 4 -> Part
    key 1 a -> WrongCall; look 2 -> NotFound(Some(Write)); write 1; look 4 -> Part; finish 2 -> WrongCall; begin 3
    miss 4; meta 4; read 0 -> Pending; read 1 -> Pending; look 2 -> NotFound(Some(Read)); end 4; write 3 x; end 3
    open 3; read 0 -> Pending; end 0; read 1 -> Pending; open 4; miss 2; meta 2; end 2; open 2; key 3 b
    read 1 -> Pending; open 0; key 0 a; write 1 x; key 3 a; end 1; read 0 -> WrongCall; open 1; key 4 d; key 2 a
    key 2 d; look 3 -> Hit(3); found 3 fresh -> Taken(Hit, None); miss 4; key 1 b; meta 4; end 4
    look 1 -> NotFound(Some(Write)); key 2 c; miss 1; open 4; read 3 -> Data(b"zzz"); key 4 c; key 4 b; miss 2; meta 1
    begin 1; meta 2; write 0 -> WrongCall; begin 2; write 1 yy; look 0 -> Hit(3); key 4 d; write 2 zzz; write 2 x
    found 0 force_miss -> Taken(CacheKey, Some(Write)); end 3; finish 1 -> Stored { size: 2, evicted: 1 }; open 3
    purge 4 -> Absent; key 3 b; write 2 x; finish 2 -> Stored { size: 5, evicted: 3 }; begin 2; begin 1
    purge 4 -> Absent; look 4 -> NotFound(Some(Write)); miss 2 -> WrongCall; write 2; look 4 -> NotFound(Some(Read))
    miss 3; finish 4 -> WrongCall; purge 0 -> Absent; purge 0 -> Absent; read 2 -> Pending; meta 3; key 0 d; miss 0
    meta 0; write 2 yy; write 1; begin 0; read 2 -> Data(b"yy"); finish 0 -> Stored { size: 0, evicted: 0 }; key 4 b
    begin 3; found 4 fresh -> WrongCall; look 4 -> Part; read 1 -> Pending; write 1 zzz; read 3 -> Pending; begin 0
    read 2 -> Pending; finish 1 -> Stored { size: 3, evicted: 1 }; write 3; finish 3 -> Stored { size: 0, evicted: 0 }
    finish 0 -> Stored { size: 0, evicted: 0 }; begin 3; found 4 fresh -> Taken(Hit, None); end 2; read 3 -> Pending
    begin 1; read 1 -> Pending; open 2; begin 0; write 1; key 2 d; end 3; look 2 -> Part; read 4 -> Data(b"zzz")
    found 2 fresh -> Taken(Hit, None); finish 0 -> Stored { size: 0, evicted: 0 }; write 3 x -> WrongCall; write 1
    read 4 -> Finished; read 4 -> Finished; finish 1 -> Stored { size: 0, evicted: 0 }; begin 0; open 3
    read 4 -> Finished; read 2 -> Finished; end 2; meta 2 -> WrongCall; end 4; open 2; open 4; read 0 -> Pending
    key 3 b; key 4 a; write 0 x; write 4 zzz -> WrongCall; look 4 -> NotFound(Some(Write)); write 0 zzz; miss 3; meta 3
    finish 0 -> Stored { size: 4, evicted: 2 }; end 1; begin 0; purge 3 -> WrongCall; begin 3
    finish 0 -> Stored { size: 0, evicted: 0 }; begin 0; write 0 zzz; read 0 -> Data(b"zzz"); write 3 yy
    look 4 -> NotFound(Some(Read)); open 1; key 4 d; key 1 d; miss 4; purge 2 -> WrongCall; read 3 -> Data(b"yy")
    write 0; read 0 -> Pending; write 3 zzz; read 0 -> Pending; end 3; meta 4; key 2 b; write 0 yy; write 0
    look 1 -> Part; write 2 -> WrongCall; purge 3 -> WrongCall; open 2 -> WrongCall
    found 1 force_miss -> Taken(CacheKey, Some(Write)); miss 1; begin 4; read 0 -> Data(b"yy"); open 3
    read 0 -> Pending; meta 1; finish 0 -> Stored { size: 5, evicted: 5 }; write 2 yy -> WrongCall; begin 0; begin 1
    write 0 x last; end 4; read 0 -> Data(b"x"); look 2 -> NotFound(Some(Write)); look 4 -> WrongCall
    write 0 x -> WrongCall; read 0 -> Finished; purge 2 -> Absent; key 2 b; key 3 d; open 4; read 1 -> Pending; key 4 a
    finish 1 -> Stored { size: 0, evicted: 0 }; begin 1; key 4 d; look 3 -> Part; write 0 yy -> WrongCall; end 0; open 0
    end 1; look 4 -> Hit(0); miss 2; found 3 expired -> Taken(Stale, Some(Write)); end 3; read 0 -> WrongCall; key 0 d
    look 0 -> Hit(0); meta 2; found 0 expired -> Taken(Stale, Some(Write)); open 3; key 3 a; look 0 -> Hit(0); miss 3
    end 0; found 4 fresh -> Taken(Hit, None); end 2; open 0; open 2; look 3 -> WrongCall; read 4 -> Data(b""); key 0 b
    open 1; key 1 c; meta 3; key 0 a; key 2 d; read 4 -> Finished; read 4 -> Finished; write 1 x -> WrongCall
    look 2 -> Hit(0); end 4; open 1 -> WrongCall; read 3 -> WrongCall; found 2 expired -> Taken(Stale, Some(Write))
    begin 3; miss 1; miss 0; open 4; key 4 d; end 2; meta 1; read 1 -> WrongCall; read 1 -> WrongCall; look 4 -> Hit(0)
    found 4 expired -> Taken(Stale, Some(Write)); read 4 -> Data(b""); begin 1; read 4 -> Finished; key 0 a -> WrongCall
    write 2 zzz last -> WrongCall; open 2; write 1  last; key 2 c; write 3 zzz; meta 0; look 2 -> Part
    read 1 -> Finished; begin 0; found 4 fresh -> WrongCall; meta 2 -> WrongCall
    finish 1 -> Stored { size: 0, evicted: 0 }; found 3 expired -> WrongCall; write 2 zzz last -> WrongCall; begin 1
    found 2 expired -> Taken(Stale, Some(Write)); end 4; read 0 -> Pending; end 0; write 3  last; open 4; open 0
    look 2 -> Part; key 0 b; read 3 -> Data(b"zzz"); read 1 -> Pending; read 2 -> Finished; write 3 -> WrongCall
    write 3 x -> WrongCall; end 2; write 3 x last -> WrongCall; open 2; finish 3 -> Stored { size: 3, evicted: 2 }
    write 1; begin 3; write 3 x last; look 0 -> NotFound(Some(Write)); key 4 d; look 0 -> NotFound(Some(Read)); end 3
    open 3; look 0 -> NotFound(Some(Write)); look 0 -> NotFound(Some(Read)); finish 3 -> WrongCall; miss 0; key 3 b
    read 1 -> Pending; look 3 -> NotFound(Some(Write)); meta 0; look 2 -> WrongCall; write 1; key 2 d; look 2 -> Hit(0)
    read 1 -> Pending; miss 4; look 3 -> NotFound(Some(Read)); begin 0; write 0 yy; miss 3; meta 3
    read 0 -> Data(b"yy"); begin 3; meta 4; finish 0 -> Stored { size: 2, evicted: 0 }; end 0; read 3 -> Pending
    begin 4; miss 2; write 1 x; finish 1 -> Stored { size: 1, evicted: 3 }; read 3 -> Pending; write 3  last; end 3
    begin 1; open 0; meta 2; finish 4 -> Stored { size: 0, evicted: 0 }; open 3; key 3 d
    finish 1 -> Stored { size: 0, evicted: 0 }; begin 2; read 4 -> Finished; begin 1
    finish 2 -> Stored { size: 0, evicted: 0 }; begin 4; key 0 a; miss 0; end 2; look 3 -> Part; end 4; open 2
    found 3 force_miss -> Taken(CacheKey, Some(Write)); key 2 c; meta 0; miss 3; read 0 -> WrongCall
    key 0 c -> WrongCall; open 4; finish 4 -> WrongCall; finish 1 -> Stored { size: 0, evicted: 0 }; begin 0
    purge 1 -> WrongCall; key 1 c -> WrongCall; begin 1; begin 4 -> WrongCall; purge 2 -> Purged; finish 4 -> WrongCall
    finish 0 -> Stored { size: 0, evicted: 0 }; meta 3; miss 2; end 3; open 3; meta 2; end 2; open 2; begin 0
    open 3 -> WrongCall; key 2 c; key 3 c; key 2 b; key 4 c; miss 3; meta 3; miss 2; end 1; open 1
    look 4 -> NotFound(Some(Write)); key 1 c; miss 4; write 0 x last; begin 3; meta 4; look 1 -> Part
    write 0 zzz -> WrongCall; meta 2; read 2 -> WrongCall; write 0 zzz -> WrongCall; begin 4; read 4 -> Pending
    look 1 -> Part; miss 1; read 4 -> Pending; begin 4 -> WrongCall; finish 0 -> Stored { size: 1, evicted: 0 }; begin 2
    meta 1; read 0 -> Data(b"x"); end 1; begin 0; read 3 -> Pending; read 4 -> Pending; write 4 x last; end 3; open 1
    write 4  last -> WrongCall; write 0 x last; open 3; finish 3 -> WrongCall; end 4; write 0 zzz last -> WrongCall
    key 3 b; open 4; write 2 yy last; write 0 x -> WrongCall; purge 4 -> WrongCall; look 3 -> Part
    write 0 zzz last -> WrongCall; finish 0 -> Stored { size: 1, evicted: 0 }; found 3 fresh -> Taken(Hit, None)
    begin 0; end 2; finish 0 -> Stored { size: 0, evicted: 0 }; key 1 b; read 3 -> Data(b"yy"); read 3 -> Finished
    miss 1; meta 1; key 4 a; look 4 -> Hit(0); read 1 -> WrongCall; begin 1; end 3; open 3; write 2 yy -> WrongCall
    found 4 fresh -> Taken(Hit, None); write 1  last; key 3 b; end 1; read 4 -> Data(b""); write 0  last -> WrongCall
    read 4 -> Finished; open 1; end 0; open 2; key 2 c; open 0; look 2 -> NotFound(Some(Write)); read 4 -> Finished
    read 4 -> Finished; read 4 -> Finished; key 1 d; look 3 -> Hit(2); look 1 -> Hit(0); miss 2; meta 2
    look 4 -> WrongCall; begin 2; key 0 c; look 0 -> Part; read 4 -> Finished; miss 1; end 2; open 2; meta 1; key 2 d
    key 2 d; purge 4 -> WrongCall; read 4 -> Finished; begin 1; miss 0; meta 0; begin 0; key 2 b; look 3 -> Hit(2)
    miss 3; end 0; meta 3; open 0; read 4 -> Finished; read 4 -> Finished; purge 2 -> Purged; found 1 fresh -> WrongCall
    begin 3; key 2 a; finish 3 -> Stored { size: 0, evicted: 0 }; begin 3; key 0 b
    finish 3 -> Stored { size: 0, evicted: 0 }; key 2 a; purge 2 -> Purged; miss 0; meta 0; end 3
    look 2 -> NotFound(Some(Write)); miss 2; meta 2; open 3; begin 2; end 2; read 0 -> WrongCall; read 4 -> Finished
    key 3 b; look 3 -> Hit(0); write 1 zzz; read 4 -> Finished; write 1 yy; miss 3; meta 3; read 4 -> Finished; begin 3
    open 2; read 4 -> Finished; end 3; read 4 -> Finished; open 3; write 3 yy last -> WrongCall; key 3 c
    finish 1 -> Stored { size: 5, evicted: 7 }; begin 0; key 4 b -> WrongCall; read 4 -> Finished; write 0 yy last
    end 4; open 4; key 2 a; read 1 -> Data(b"zzzyy"); look 3 -> NotFound(Some(Write)); key 0 c -> WrongCall; end 0
    begin 1; purge 2 -> Absent; finish 1 -> Stored { size: 0, evicted: 0 }; open 0; purge 3 -> Absent
    look 3 -> NotFound(Some(Read)); begin 1; look 3 -> NotFound(Some(Write)); key 4 b; look 3 -> NotFound(Some(Read))
    write 4 x last -> WrongCall; look 2 -> NotFound(Some(Write)); look 4 -> Hit(0); read 1 -> Pending; miss 3
    look 2 -> NotFound(Some(Read)); meta 3; miss 2; found 4 fresh -> Taken(Hit, None); key 0 b; end 4; write 1 x; open 4
    key 4 b; write 1 zzz; purge 0 -> Purged; end 1; meta 1 -> WrongCall; look 4 -> NotFound(Some(Write)); begin 3
    write 3 x; end 3; look 4 -> NotFound(Some(Read)); open 3; key 0 d; look 4 -> NotFound(Some(Write))
    look 4 -> NotFound(Some(Read)); key 3 b; open 1; look 3 -> NotFound(Some(Write)); miss 0; meta 0
    meta 4 -> WrongCall; meta 2; look 3 -> NotFound(Some(Read)); begin 0; meta 4 -> WrongCall; begin 2
    purge 4 -> Absent; key 1 a; look 4 -> NotFound(Some(Write)); look 3 -> NotFound(Some(Read))
    look 3 -> NotFound(Some(Read)); finish 0 -> Stored { size: 0, evicted: 0 }; begin 0; purge 1 -> Purged
    look 3 -> NotFound(Some(Read)); finish 2 -> Refused(WriteRemoved); end 2; look 4 -> NotFound(Some(Read))
    read 0 -> Pending; write 0 x; open 2; read 0 -> Data(b"x"); miss 1; meta 1; begin 1; key 4 d; key 3 c; key 2 c
    look 2 -> NotFound(Some(Write)); finish 1 -> Stored { size: 0, evicted: 0 }; read 0 -> Pending; end 1; open 1
    miss 4; meta 4; miss 2; key 1 c; purge 3 -> Absent; meta 2; read 2 -> WrongCall; look 1 -> NotFound(Some(Read))
    miss 3; meta 0; read 0 -> Pending; miss 1; read 0 -> Pending; read 2 -> WrongCall; meta 1; write 4 -> WrongCall
    end 4; look 4 -> WrongCall; end 1; purge 1 -> WrongCall; begin 2; begin 3 -> WrongCall; open 4
    finish 0 -> Stored { size: 1, evicted: 2 }; read 0 -> Finished; key 4 d; finish 2 -> Stored { size: 0, evicted: 0 }
    look 4 -> Hit(1); begin 2; meta 3; write 2; begin 3; found 4 expired -> Taken(Stale, Some(Write)); begin 0
    look 4 -> Part; write 0 zzz; open 1; finish 3 -> Stored { size: 0, evicted: 0 }; end 4; write 0 yy; begin 3
    read 2 -> Pending; key 3 b -> WrongCall; key 1 d; write 3 zzz; look 1 -> Part; write 0 yy; open 4; write 2  last
    write 0  last; read 4 -> WrongCall; look 0 -> WrongCall; read 3 -> Data(b"zzz"); read 3 -> Pending
    finish 3 -> Stored { size: 3, evicted: 0 }; key 4 a; look 4 -> Hit(0); found 4 expired -> Taken(Stale, Some(Write))
    meta 4; begin 3; read 0 -> Data(b"zzzyyyy"); read 2 -> Finished; write 0 x -> WrongCall
    found 1 fresh -> Taken(Hit, None); read 0 -> Finished; finish 3 -> Stored { size: 0, evicted: 0 }
    read 2 -> Finished; read 2 -> Finished; read 4 -> Data(b""); read 4 -> Finished; begin 4; begin 3
    finish 4 -> Stored { size: 0, evicted: 0 }; open 0 -> WrongCall; write 3 x last; write 0 x -> WrongCall; begin 4
    write 2 zzz -> WrongCall; write 2  last -> WrongCall; write 4 zzz last; write 2 zzz -> WrongCall
    read 1 -> Data(b"zzzyyyy"); end 2; end 1; open 2; found 0 expired -> WrongCall; read 4 -> Data(b"zzz")
    read 0 -> Finished; key 2 a; end 3; open 1; open 3; write 0 yy last -> WrongCall; key 1 c
    write 4 yy last -> WrongCall; key 0 a -> WrongCall; read 4 -> Finished; key 3 a; write 0 zzz -> WrongCall; miss 1
    write 0 zzz -> WrongCall; write 0 yy -> WrongCall; miss 2; miss 3; meta 3; meta 2; write 4 x last -> WrongCall
    begin 3; meta 1; read 1 -> WrongCall; write 4 x -> WrongCall; write 0 -> WrongCall; finish 2 -> Nothing
    finish 4 -> Stored { size: 3, evicted: 6 }; begin 2; write 0 yy -> WrongCall; end 1; read 0 -> Finished
    write 2 x last; read 2 -> Data(b"x"); begin 4; finish 3 -> Stored { size: 0, evicted: 0 }
    write 3 x last -> WrongCall; open 1; read 0 -> Finished; begin 3; key 1 d
    finish 4 -> Stored { size: 0, evicted: 0 }; begin 4; finish 3 -> Stored { size: 0, evicted: 0 }
    found 4 fresh -> WrongCall; key 1 b; read 4 -> Pending; begin 3; finish 2 -> Stored { size: 1, evicted: 0 }; end 1
    read 0 -> Finished; open 1; key 1 b; write 0  last -> WrongCall; end 3; look 1 -> NotFound(Some(Write))
    write 4 zzz last; end 0; end 4; begin 2; open 3; look 1 -> NotFound(Some(Read)); begin 0 -> WrongCall; write 2 yy
    key 3 a; open 0; key 0 d; open 4; key 4 d; look 0 -> NotFound(Some(Write)); look 3 -> Part
    found 3 force_miss -> Taken(CacheKey, Some(Write)); purge 4 -> Absent; miss 3; purge 0 -> Absent; meta 3
    read 3 -> WrongCall; miss 1; begin 3; look 4 -> NotFound(Some(Read)); look 0 -> NotFound(Some(Read)); write 3 zzz
    end 2; look 0 -> NotFound(Some(Write)); look 0 -> NotFound(Some(Read)); miss 4; look 0 -> NotFound(Some(Write))
    meta 3; meta 1; begin 1; read 1 -> Pending; finish 1 -> Stored { size: 0, evicted: 0 }; purge 1 -> WrongCall
    write 3 zzz last; read 3 -> Data(b"zzzzzz"); miss 0; open 2; found 0 fresh -> WrongCall; meta 0; meta 4; key 2 a
    begin 0; miss 2; end 4; write 0 x; meta 2; write 1 yy -> WrongCall; read 0 -> Data(b"x"); read 3 -> Finished; end 1
    begin 2; open 1; read 2 -> Pending; write 3 zzz -> WrongCall; write 2 yy; write 3 yy last -> WrongCall
    finish 2 -> Stored { size: 2, evicted: 4 }; begin 2; read 0 -> Pending; read 0 -> Pending; write 3 -> WrongCall
    finish 3 -> Stored { size: 6, evicted: 7 }; read 0 -> Pending; begin 3; finish 1 -> WrongCall; read 3 -> Pending
    key 1 c; read 2 -> Pending; open 4; look 1 -> NotFound(Some(Write)); finish 2 -> Stored { size: 0, evicted: 0 }
    read 3 -> Pending; end 0; write 3 yy last; end 2; write 3 yy -> WrongCall; key 4 b; miss 4; meta 4; open 0; end 3
    open 2; key 2 a; look 2 -> Hit(0); key 0 a; key 1 a; open 3; begin 4; miss 1; end 4; look 2 -> Hit(0); meta 1
    open 4; key 4 a; read 1 -> WrongCall; miss 4; miss 0; end 1; meta 0; meta 4; open 1; key 3 c; key 1 b; end 0
    miss 4 -> WrongCall; meta 1 -> WrongCall; look 3 -> NotFound(Some(Write)); purge 3 -> Absent; miss 1; key 3 b
    found 2 fresh -> Taken(Hit, None); meta 1; open 0; key 0 c; end 1; end 2; read 4 -> WrongCall; open 1
    purge 3 -> Absent; key 1 c; miss 0; miss 3; meta 0; miss 1; read 2 -> WrongCall; read 4 -> WrongCall; begin 4; end 0
    read 4 -> Pending; open 2; write 4 yy; open 0; meta 3; begin 3; read 4 -> Data(b"yy"); end 4; key 0 a
    look 2 -> WrongCall; finish 3 -> Stored { size: 0, evicted: 0 }; meta 1; purge 0 -> Purged; key 0 a; begin 1; open 4
    found 4 expired -> WrongCall; key 2 a; miss 2; read 3 -> Finished; end 3; meta 2; begin 2
    finish 1 -> Stored { size: 0, evicted: 0 }; open 3; read 1 -> Finished; read 1 -> Finished; key 4 c; key 0 a; end 1
    read 2 -> Pending; look 0 -> Part; miss 4; found 0 expired -> Taken(Stale, Some(Write)); key 3 a
    open 4 -> WrongCall; miss 3; open 1; meta 3; read 3 -> WrongCall; found 0 force_miss -> WrongCall; meta 0
    write 2 yy; meta 4; key 1 b; look 1 -> Hit(0); begin 4; end 0; miss 1; meta 1
    finish 2 -> Stored { size: 2, evicted: 0 }; end 4; open 0; key 0 d; open 4; look 0 -> NotFound(Some(Write))
    open 1 -> WrongCall; begin 2; read 2 -> Pending; finish 2 -> Stored { size: 0, evicted: 0 }; begin 1; begin 3
    finish 1 -> Stored { size: 0, evicted: 0 }; begin 2; key 4 d; finish 2 -> Stored { size: 0, evicted: 0 }
    look 0 -> NotFound(Some(Read)); miss 4; key 0 b; write 3 yy; write 3 yy; meta 4; key 0 c; write 3; begin 2
    finish 2 -> Stored { size: 0, evicted: 0 }; finish 3 -> Stored { size: 4, evicted: 3 }; read 1 -> Finished; end 4
    begin 1; purge 0 -> Absent; begin 3; write 3; begin 2; write 3  last; look 0 -> NotFound(Some(Write))
    begin 1 -> WrongCall; write 1; key 2 d -> WrongCall; write 3 yy last -> WrongCall; open 4; key 4 b
    read 2 -> Pending; read 3 -> Finished; purge 4 -> Purged; miss 0; write 1 zzz; meta 0; write 1 zzz
    look 4 -> NotFound(Some(Write)); finish 1 -> Refused(WriteRemoved); end 3; begin 0
    finish 0 -> Stored { size: 0, evicted: 0 }; begin 1; look 4 -> Part; read 1 -> Pending; open 3
    found 4 fresh -> Taken(Hit, None); key 3 c; write 2 yy; begin 0; write 0; key 2 d -> WrongCall; miss 3
    finish 1 -> Stored { size: 0, evicted: 0 }; read 1 -> Finished; begin 1; write 0  last; read 4 -> Finished; meta 3
    begin 3; read 4 -> Finished; read 4 -> Finished; finish 2 -> Stored { size: 2, evicted: 4 }
    write 0 zzz last -> WrongCall; begin 2; write 3 x last; read 1 -> Pending; write 0 zzz -> WrongCall; end 1
    write 3 yy -> WrongCall; read 2 -> Pending; write 0 -> WrongCall; read 3 -> Data(b"x"); meta 1 -> WrongCall; end 3
    finish 2 -> Stored { size: 0, evicted: 0 }; open 3; key 3 c; read 4 -> Finished; read 4 -> Finished
    read 4 -> Finished; open 1; write 0 x -> WrongCall; write 0 -> WrongCall; read 4 -> Finished; look 3 -> Part
    begin 2; found 3 fresh -> Taken(Hit, None); write 0 x -> WrongCall; purge 2 -> WrongCall; purge 3 -> WrongCall
    finish 4 -> WrongCall; end 2; miss 1 -> WrongCall; read 3 -> Finished; purge 4 -> WrongCall; meta 4 -> WrongCall
    read 0 -> Finished; open 2; read 3 -> Finished; key 2 b; key 1 c; read 0 -> Finished; read 4 -> Finished; key 1 b
    key 1 d; look 1 -> NotFound(Some(Write)); finish 0 -> Stored { size: 0, evicted: 0 }; read 3 -> Finished; end 4
    open 4; read 3 -> Finished; key 4 d; end 3; read 0 -> Finished; begin 0; look 1 -> NotFound(Some(Read))
    look 2 -> Hit(0); miss 4; open 3; meta 4; read 4 -> WrongCall; look 1 -> NotFound(Some(Write))
    look 1 -> NotFound(Some(Read)); look 2 -> Hit(0); read 4 -> WrongCall; look 2 -> Hit(0); key 3 b; miss 3; meta 3
    read 3 -> WrongCall; begin 4; write 0  last; look 1 -> Part; look 2 -> Hit(0); read 0 -> Finished
    finish 4 -> Stored { size: 0, evicted: 0 }; begin 3; begin 4; end 0; found 2 fresh -> Taken(Hit, None)
    read 3 -> Pending; open 0; key 0 a; write 3 zzz last; end 3; look 1 -> Part; write 1 -> WrongCall; open 3
    found 1 fresh -> Taken(Hit, None); read 1 -> Pending; finish 4 -> Stored { size: 0, evicted: 0 }; key 3 d; begin 4
    write 4 x; purge 0 -> Purged; miss 2 -> WrongCall; look 3 -> Part; found 3 fresh -> Taken(Hit, None)
    read 3 -> Data(b"x"); purge 0 -> Absent; read 3 -> Pending; end 1; look 0 -> NotFound(Some(Write))
    write 1 zzz last -> WrongCall; finish 4 -> Stored { size: 1, evicted: 0 }; open 1; end 2; end 3; open 2; key 1 a
    open 3; look 1 -> NotFound(Some(Read)); key 2 d; look 1 -> NotFound(Some(Read)); look 2 -> Hit(1)
    open 4 -> WrongCall; meta 2 -> WrongCall; look 1 -> NotFound(Some(Read)); found 2 fresh -> Taken(Hit, None); key 3 a
    read 2 -> Data(b"x"); begin 4; look 1 -> NotFound(Some(Read)); purge 3 -> Absent
    finish 4 -> Stored { size: 0, evicted: 0 }; look 0 -> NotFound(Some(Read)); purge 1 -> Absent; begin 4
    read 2 -> Finished; read 2 -> Finished; purge 0 -> Absent; purge 3 -> Absent; look 4 -> WrongCall
    look 0 -> NotFound(Some(Write)); write 4 x; finish 4 -> Stored { size: 1, evicted: 0 }; begin 4; purge 0 -> Absent
    key 3 c; look 0 -> NotFound(Some(Read)); miss 2 -> WrongCall; key 3 d; read 2 -> Finished; read 2 -> Finished
    look 1 -> NotFound(Some(Write)); finish 4 -> Stored { size: 0, evicted: 0 }; look 0 -> NotFound(Some(Read)); key 0 d
    finish 1 -> WrongCall; read 2 -> Finished; look 3 -> Hit(0); look 0 -> Hit(0); miss 3; meta 3; read 2 -> Finished
    look 1 -> NotFound(Some(Read)); found 0 fresh -> Taken(Hit, None); read 2 -> Finished; end 0; end 2; begin 3; end 4
    open 2; look 1 -> NotFound(Some(Write)); finish 3 -> Stored { size: 0, evicted: 0 }; miss 1; meta 1
    end 0 -> WrongCall; begin 3; end 1; open 1; key 1 a; open 4; read 3 -> Pending; look 1 -> NotFound(Some(Write))
    key 2 b; miss 2; write 3 yy last; open 0; look 1 -> NotFound(Some(Read)); key 4 d; look 4 -> Part
    look 1 -> NotFound(Some(Write)); write 3  last -> WrongCall; purge 4 -> Purged; open 2 -> WrongCall
    look 1 -> NotFound(Some(Read)); key 0 c; look 0 -> Hit(0); meta 2; end 0; end 3; open 0; open 2 -> WrongCall
    found 4 expired -> Taken(Stale, Some(Write)); key 0 d; purge 1 -> Absent; end 4; purge 1 -> Absent
    look 0 -> NotFound(Some(Write)); end 2; open 3; purge 1 -> Absent; purge 1 -> Absent; look 0 -> NotFound(Some(Read))
    open 4; miss 0; key 4 b; miss 4; miss 1; meta 1; open 2; key 3 b; miss 3; meta 3; meta 4; begin 3; meta 0
    read 1 -> WrongCall; begin 0; read 0 -> Pending; write 3 x; key 2 c; finish 0 -> Stored { size: 0, evicted: 0 }
    read 3 -> Data(b"x"); look 2 -> Hit(0); begin 0; miss 2; begin 1; finish 1 -> Stored { size: 0, evicted: 0 }
    begin 1; finish 1 -> Stored { size: 0, evicted: 0 }; read 0 -> Pending; end 1; open 1; begin 4; meta 2
    read 4 -> Pending; begin 1 -> WrongCall; write 4  last; begin 2; read 2 -> Pending; write 2
    finish 3 -> Stored { size: 1, evicted: 0 }; write 2 zzz last; key 1 c; write 2 -> WrongCall; begin 3; end 2
    write 4 yy -> WrongCall; look 1 -> Hit(0); end 0; open 0; key 0 d; key 0 d
    found 1 expired -> Taken(Stale, Some(Write)); open 0 -> WrongCall; purge 0 -> Purged
    finish 4 -> Stored { size: 0, evicted: 0 }; key 0 b; purge 0 -> Purged; look 0 -> NotFound(Some(Write)); open 2
    end 4; key 2 b; open 4; miss 0; look 1 -> Hit(0); miss 2; meta 2; meta 0; key 4 a; read 1 -> Data(b"")
    found 1 force_miss -> Taken(Stale, Some(Read)); miss 1; write 0 x -> WrongCall; read 3 -> Pending; key 4 c; meta 1
    read 0 -> WrongCall; begin 2; end 3; begin 0; end 0; open 0; write 2 x; open 3; key 0 c; miss 4; key 3 c
    look 0 -> Hit(0); meta 4; read 2 -> Data(b"x"); look 0 -> Hit(0); miss 3; meta 3; read 2 -> Pending
    finish 4 -> Nothing; read 2 -> Pending; write 2 zzz; begin 1; read 1 -> Pending; read 4 -> WrongCall; end 3; end 4
    write 1; open 3; read 1 -> Pending; read 2 -> Data(b"zzz"); key 3 a; finish 1 -> Stored { size: 0, evicted: 0 }
    miss 3; open 4; begin 1; read 2 -> Pending; key 4 a; end 1; meta 3; end 3; write 2 zzz; miss 0; open 3
    finish 2 -> Stored { size: 7, evicted: 15 }; key 4 d; meta 0; begin 2; look 4 -> NotFound(Some(Write)); key 3 a
    open 1; end 0; end 2; purge 4 -> Absent; open 0; miss 4; open 2; key 2 b; meta 4; look 3 -> NotFound(Some(Write))
    purge 2 -> Absent; key 1 c; purge 2 -> Absent; key 1 a; miss 1; miss 2; meta 2; look 3 -> NotFound(Some(Read))
    look 3 -> NotFound(Some(Write)); key 0 d; end 2; open 2; key 2 a; look 0 -> NotFound(Some(Read))
    meta 2 -> WrongCall; miss 0; look 2 -> NotFound(Some(Read)); begin 4; finish 4 -> Stored { size: 0, evicted: 0 }
    key 1 d -> WrongCall; begin 4; meta 1; end 1; meta 0; look 3 -> NotFound(Some(Read)); open 1; key 1 c; miss 1
    read 4 -> Pending; look 3 -> NotFound(Some(Write)); begin 0; end 0; look 2 -> NotFound(Some(Read))
    finish 4 -> Stored { size: 0, evicted: 0 }; open 0; meta 1; look 2 -> NotFound(Some(Read)); miss 2; meta 2
    found 4 force_miss -> WrongCall; begin 1; end 2; begin 4; open 2; key 2 d; write 3 zzz -> WrongCall; write 1  last
    look 3 -> NotFound(Some(Read)); look 3 -> NotFound(Some(Write)); write 4 yy; read 4 -> Data(b"yy"); look 2 -> Part
    end 4; key 0 b; finish 1 -> Stored { size: 0, evicted: 0 }; miss 0; begin 1; look 3 -> NotFound(Some(Read)); open 4
    key 4 a; miss 4; look 3 -> NotFound(Some(Write)); write 1 yy last; look 2 -> Hit(0); miss 2; miss 3; meta 3; meta 2
    meta 4; meta 0; begin 2; end 2; begin 4; write 1 yy last -> WrongCall; read 0 -> WrongCall; open 2
    read 1 -> Data(b"yy"); read 3 -> WrongCall; read 0 -> WrongCall; begin 3; read 3 -> Pending
    finish 3 -> Stored { size: 0, evicted: 0 }; write 4; write 0 zzz -> WrongCall; open 0 -> WrongCall; key 2 c
    purge 2 -> Purged; miss 2; begin 3; finish 4 -> Stored { size: 0, evicted: 0 }; begin 4; begin 0; read 1 -> Finished
    write 1 yy last -> WrongCall; meta 2; write 1  last -> WrongCall; read 2 -> WrongCall; purge 2 -> WrongCall
    read 0 -> Pending; begin 4 -> WrongCall; read 2 -> WrongCall; begin 2; write 0 x
    finish 0 -> Stored { size: 1, evicted: 0 }; finish 1 -> Refused(WriteRemoved); end 1; read 0 -> Data(b"x")
    write 2 yy last; end 4; open 4; finish 2 -> Stored { size: 2, evicted: 0 }; write 3 yy; write 3 yy; open 1; key 1 a
    key 4 d; begin 0; write 0 yy last; write 0 x last -> WrongCall; look 1 -> Part; write 0 yy last -> WrongCall
    write 3; found 1 fresh -> Taken(Hit, None); end 1; begin 2; open 1; key 1 d; look 1 -> Hit(0)
    read 3 -> Data(b"yyyy"); write 4 x -> WrongCall; miss 1; meta 1; begin 1; key 3 c -> WrongCall
    read 0 -> Data(b"yy"); key 0 d -> WrongCall; finish 3 -> Stored { size: 4, evicted: 6 }; end 3; write 2  last
    write 1 zzz; read 1 -> Data(b"zzz"); write 2  last -> WrongCall; open 3; end 1; open 1; read 2 -> Finished
    begin 2 -> WrongCall; write 2 x last -> WrongCall; write 0 yy -> WrongCall; write 0 yy -> WrongCall
    write 0 zzz -> WrongCall; write 2 x -> WrongCall; read 2 -> Finished; key 3 d; key 1 d; found 4 expired -> WrongCall
    look 4 -> NotFound(Some(Write)); look 4 -> NotFound(Some(Read)); look 4 -> NotFound(Some(Write))
    look 1 -> NotFound(Some(Read)); write 0 yy last -> WrongCall; key 3 b; purge 2 -> WrongCall
    finish 2 -> Stored { size: 0, evicted: 0 }; look 4 -> NotFound(Some(Read)); read 2 -> Finished; miss 4
    read 0 -> Finished; look 3 -> Part; meta 4; begin 4; purge 4 -> WrongCall; begin 2
    finish 0 -> Stored { size: 2, evicted: 1 }; found 3 fresh -> Taken(Hit, None); end 3; open 2 -> WrongCall
    purge 0 -> WrongCall; miss 1; open 3; write 2 yy last; meta 1; finish 2 -> Stored { size: 2, evicted: 0 }; begin 0
    begin 1; end 0; key 3 c; open 0; key 0 d; begin 2; finish 2 -> Stored { size: 0, evicted: 0 }; end 4; open 4
    key 4 c; look 4 -> Hit(0); read 1 -> Pending; found 4 expired -> Taken(Stale, Some(Write)); read 2 -> Finished
    look 4 -> Hit(0); finish 3 -> WrongCall; miss 4; look 0 -> Part; meta 4; write 1 yy last; read 4 -> Data(b""); end 4
    end 2; write 1 zzz last -> WrongCall; open 4; miss 0; key 4 d; open 2; key 2 a; key 4 c; meta 1
    begin 1 -> WrongCall; read 1 -> Data(b"yy"); finish 1 -> Stored { size: 2, evicted: 2 }; miss 3; purge 2 -> Absent
    meta 3; meta 0; begin 0; begin 3; look 4 -> Part; purge 2 -> Absent; write 0; write 0 yy; end 0; open 0
    purge 2 -> Absent; found 4 fresh -> Taken(Hit, None); end 4; begin 1; open 4; purge 2 -> Absent; key 4 a
    look 4 -> NotFound(Some(Write)); key 0 c; look 2 -> NotFound(Some(Read)); write 1 yy; key 2 a; miss 2
    finish 1 -> Stored { size: 2, evicted: 1 }; miss 4; meta 2; finish 3 -> Stored { size: 0, evicted: 0 }; begin 3
    look 0 -> Part; read 1 -> Data(b"yy"); meta 4; miss 0; meta 0; read 0 -> WrongCall; write 3 x last; begin 4; begin 1
    read 4 -> Pending; begin 2; read 1 -> Pending; write 3 x -> WrongCall; write 3 -> WrongCall; end 2; open 2
    write 4 x; read 3 -> Data(b"x"); key 2 d; read 3 -> Finished; found 4 fresh -> WrongCall
    finish 3 -> Stored { size: 1, evicted: 0 }; begin 0; finish 4 -> Stored { size: 1, evicted: 2 }; begin 4
    read 3 -> Finished; write 4; begin 3; read 1 -> Pending; look 2 -> Part; write 3; read 3 -> Pending; write 3  last
    write 1; read 4 -> Pending; write 0 yy; end 1; write 0 yy last; read 4 -> Pending; read 0 -> Data(b"yyyy")
    write 1 zzz -> WrongCall; open 1; key 1 c; look 0 -> WrongCall; miss 2; read 0 -> Finished; write 0 zzz -> WrongCall
    read 0 -> Finished; write 3 x -> WrongCall; write 0 x last -> WrongCall; write 3 x -> WrongCall
    write 3 yy -> WrongCall; meta 2; read 0 -> Finished; read 4 -> Pending; end 3; end 0; end 2; open 2; key 2 b
    read 4 -> Pending; purge 1 -> Purged; open 0; open 3; look 2 -> NotFound(Some(Write))
    look 1 -> NotFound(Some(Write)); miss 2; read 4 -> Pending; miss 1; meta 2; write 4 x; key 3 a; begin 2
    look 3 -> Part; key 0 c; finish 4 -> Stored { size: 1, evicted: 0 }; end 4; miss 0; open 4
    finish 2 -> Stored { size: 0, evicted: 0 }; purge 2 -> WrongCall; key 4 d; begin 2
    found 3 force_miss -> Taken(CacheKey, Some(Write)); look 4 -> Hit(2); meta 1; open 3 -> WrongCall; read 2 -> Pending
    meta 0; end 1; miss 3; read 0 -> WrongCall; meta 3; begin 0; write 2 yy; finish 1 -> WrongCall; read 0 -> Pending
    open 1; begin 3; key 1 a; write 2 yy; look 1 -> Part; finish 3 -> Stored { size: 0, evicted: 0 }
    found 4 force_miss -> Taken(CacheKey, Some(Write)); finish 2 -> Stored { size: 4, evicted: 3 }; key 4 b; begin 2
    end 2; finish 0 -> Stored { size: 0, evicted: 0 }; purge 4 -> Purged; look 1 -> Hit(0); open 2; read 0 -> Finished
    begin 3; open 0 -> WrongCall; write 3; begin 0; meta 4 -> WrongCall; write 3 yy; found 1 fresh -> Taken(Hit, None)
    write 0 zzz; write 1 x last -> WrongCall; end 1; read 0 -> Data(b"zzz"); read 3 -> Data(b"yy")
    finish 0 -> Stored { size: 3, evicted: 0 }; miss 4; finish 3 -> Stored { size: 2, evicted: 1 }; read 3 -> Finished
    meta 4; look 4 -> WrongCall; key 2 a; read 4 -> WrongCall; miss 2; open 1; meta 1 -> WrongCall; key 1 b
    read 1 -> WrongCall; end 4; meta 2; begin 0; meta 1 -> WrongCall; begin 2
    finish 2 -> Stored { size: 0, evicted: 0 }; begin 3; begin 2; end 2; open 4; look 1 -> NotFound(Some(Write)); open 2
    key 2 a; write 0 x; key 4 b; miss 2; purge 1 -> Absent; look 1 -> NotFound(Some(Read)); read 2 -> WrongCall
    look 4 -> NotFound(Some(Write)); read 3 -> Pending; write 3 zzz; look 1 -> NotFound(Some(Read)); miss 4; write 0 yy
    read 0 -> Data(b"xyy"); meta 2; finish 0 -> Stored { size: 3, evicted: 4 }
    finish 3 -> Stored { size: 3, evicted: 3 }; end 0; meta 4; finish 2 -> Nothing; end 2; begin 3; open 2
    write 2 yy -> WrongCall; open 0; key 2 d; look 2 -> NotFound(Some(Write)); write 3 x last; read 4 -> WrongCall
    miss 2; meta 2; begin 2; read 4 -> WrongCall; begin 4; key 0 b; write 2 yy; miss 0; write 4; purge 1 -> Purged
    finish 2 -> Stored { size: 2, evicted: 0 }; read 3 -> Data(b"x"); write 4 yy; write 4; meta 0; begin 0
    look 1 -> Part; found 1 fresh -> Taken(Hit, None); finish 3 -> Stored { size: 1, evicted: 1 }; begin 2; end 3
    read 2 -> Pending; read 2 -> Pending; read 1 -> Pending; end 0; end 1; open 1; purge 0 -> WrongCall; write 2
    key 1 a; miss 1; open 0; read 4 -> Data(b"yy"); end 2; key 0 b; meta 1; look 0 -> NotFound(Some(Write))
    look 4 -> WrongCall; begin 1; read 1 -> Pending; begin 1 -> WrongCall; meta 1; open 3
    finish 4 -> Refused(WriteRemoved); write 1 x; found 3 fresh -> WrongCall; begin 4; miss 0; key 3 c; open 2
    finish 4 -> Stored { size: 0, evicted: 0 }; meta 0; purge 0 -> WrongCall; begin 0; purge 3 -> Absent
    write 1 yy last; read 4 -> Finished; write 0; finish 1 -> Stored { size: 3, evicted: 1 }; end 1
    look 3 -> NotFound(Some(Write)); finish 0 -> Stored { size: 0, evicted: 0 }; open 1; begin 4; read 4 -> Pending
    key 2 b; key 2 c; key 1 a; end 0; miss 3; finish 2 -> WrongCall; read 4 -> Pending; look 2 -> NotFound(Some(Read))
    finish 0 -> WrongCall; purge 1 -> Purged; open 0; found 0 fresh -> WrongCall
    finish 4 -> Stored { size: 0, evicted: 0 }; key 0 b; miss 0; begin 4; read 4 -> Pending; meta 3; purge 1 -> Absent
    look 1 -> NotFound(Some(Write)); read 4 -> Pending; look 1 -> NotFound(Some(Read)); purge 1 -> Absent
    finish 3 -> Nothing; begin 3; look 2 -> Part; look 1 -> NotFound(Some(Write)); read 4 -> Pending
    open 1 -> WrongCall; meta 0; look 1 -> NotFound(Some(Read)); look 1 -> NotFound(Some(Write))
    look 1 -> NotFound(Some(Read)); end 0; finish 3 -> Stored { size: 0, evicted: 0 }; end 4; open 0; key 0 b; miss 0
    begin 3; miss 2; open 4; meta 2; meta 0; read 0 -> WrongCall; write 0  last -> WrongCall
    finish 3 -> Stored { size: 0, evicted: 0 }; key 1 c; begin 2; key 4 b; look 1 -> Part; begin 0; open 4 -> WrongCall
    write 0 yy; read 2 -> Pending; found 1 expired -> Taken(Stale, Some(Write)); miss 4; meta 4; read 1 -> Pending
    begin 4; read 4 -> Pending; end 1; finish 4 -> Stored { size: 0, evicted: 0 }; begin 4
    finish 2 -> Stored { size: 0, evicted: 0 }; open 1; write 0 zzz; key 1 b; finish 4 -> Stored { size: 0, evicted: 0 }
    begin 4; miss 1; end 2; begin 3; write 0  last; meta 1; miss 3 -> WrongCall; open 2; write 0 x last -> WrongCall
    meta 3; key 2 a; look 2 -> NotFound(Some(Write)); finish 4 -> Stored { size: 0, evicted: 0 }
    finish 0 -> Stored { size: 5, evicted: 1 }; write 1 zzz -> WrongCall; write 3 yy; begin 0; write 0 zzz; miss 2
    read 0 -> Data(b"zzz"); read 4 -> Finished; begin 4; key 1 a -> WrongCall; read 3 -> Data(b"yy"); end 0; open 0
    finish 3 -> Stored { size: 2, evicted: 10 }; key 0 a; end 1; purge 0 -> Absent; open 1; meta 2; end 2; write 4 yy
    open 2; write 4 zzz; begin 3; read 4 -> Data(b"yyzzz"); read 4 -> Pending; key 1 a; look 1 -> NotFound(Some(Write))
    finish 3 -> Stored { size: 0, evicted: 0 }; miss 0; miss 1; begin 3; read 4 -> Pending; read 3 -> Pending; key 2 a
    read 3 -> Pending; found 4 force_miss -> WrongCall; open 4 -> WrongCall; end 3
    stat -> 0 in 1, Totals { weight: 2, items: 2, evicted_weight: 242, evicted_items: 213 }, 0 before"#;
