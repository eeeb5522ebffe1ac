//! The ends that readers see, and the lengths of bodies.
use super::*;

// Two readers follow a write that is dropped half way: both have its bytes and an end, and know that it was cut off. The one
// that comes to the end of an announced body knows that it is whole, before the write is finished and after, and so does one
// whose write was finished without a word.
const WHO_READS_KNOWS_WHETHER_THE_BODY_IS_WHOLE: &str = "
    1 begins a
    1 looks a -> part until 300
    1 is-whole -> not whole
    1 writes test1
    1 reads -> data test1
    1 reads -> pending
    1 is-whole -> not whole
    1 gives-up
    1 reads -> end
    1 is-whole -> not whole
    1 begins a
    2 looks a -> part until 300
    1 writes-last test2
    2 is-whole -> not whole
    2 reads -> data test2
    2 is-whole -> whole
    2 reads -> end
    1 finishes -> Created(5)
    2 is-whole -> whole
    1 begins a
    3 looks a -> part until 300
    1 writes test3
    3 reads -> data test3
    3 is-whole -> not whole
    1 finishes -> Created(5)
    3 reads -> end
    3 is-whole -> whole
    1 is-whole -> not whole
    1 begins a
    4 looks a -> part until 300
    1 writes-last test4
    1 gives-up
    4 is-whole -> not whole
    4 reads -> data test4
    4 reads -> end
    4 is-whole -> whole
    close
";

#[test]
fn who_reads_knows_whether_the_body_is_whole(rt: HostRuntime) {
    run(&rt, rt.alloc(), WHO_READS_KNOWS_WHETHER_THE_BODY_IS_WHOLE);
}

// The finish of a write whose key was removed fails and drops it; a reader of a body that was finished knows the end of it
// also after another body took its place, or the key was removed.
const AN_END_STAYS_KNOWN: &str = "
    1 begins a
    1 looks a -> part until 300
    1 writes ab
    purge a -> Purged(None)
    1 finishes -> WriteRemoved
    1 reads -> data ab
    1 reads -> end
    1 is-whole -> not whole
    1 length -> None
    2 begins a
    2 looks a -> part until 300
    2 writes cd
    2 finishes -> Created(2)
    3 begins a
    3 writes efg
    3 finishes -> Created(3)
    purge a -> Purged(Some(CacheEntryId { number: 2 }))
    2 is-whole -> not whole
    2 length -> Some(2)
    2 reads -> data cd
    2 is-whole -> whole
    close
";

#[test]
fn an_end_stays_known(rt: HostRuntime) {
    run(&rt, rt.alloc(), AN_END_STAYS_KNOWN);
}

// A range of a complete body is whole once it was given, and its length is that of the whole body. That of a write is known
// when its end is.
const THE_LENGTH_OF_A_BODY_IS_KNOWN_BEFORE_IT_IS_READ: &str = "
    1 begins a
    2 looks a -> part until 300
    1 writes test1
    2 length -> None
    1 writes-last test2
    2 length -> Some(10)
    1 finishes -> Created(10)
    2 length -> Some(10)
    1 looks a -> hit 10 until 300
    1 length -> Some(10)
    1 is-whole -> not whole
    1 seeks 2 4
    1 length -> Some(10)
    1 reads -> data st
    1 is-whole -> whole
    1 reads -> end
    1 seeks 5
    1 is-whole -> not whole
    1 reads -> data test2
    1 is-whole -> whole
    1 ends
    1 is-whole -> none open
    1 length -> none open
    close
";

#[test]
fn the_length_of_a_body_is_known_before_it_is_read(rt: HostRuntime) {
    run(
        &rt,
        rt.alloc(),
        THE_LENGTH_OF_A_BODY_IS_KNOWN_BEFORE_IT_IS_READ,
    );
}
