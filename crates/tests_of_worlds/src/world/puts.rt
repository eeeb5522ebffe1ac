//! Responses that are pushed in, between the calls of requests. None is fresh but for what it says of
//! itself.
use crate::play::{Limits, play_on_both, play_on_policies};

const NONE: &str = "";

// A response that is pushed in is found as it comes, and at its end it is stored like one that a
// request filled.
#[test]
fn found_while_it_comes(rt: HostRuntime) {
    let rows = "put 9 k -> Done\n\
        feed 9 begun -> Done\n\
        open 1 -> Done\n\
        key 1 k -> Done\n\
        look 1 -> NotFound(Some(Write))\n\
        feed 9 ended -> Done\n\
        open 2 -> Done\n\
        key 2 k -> Done\n\
        look 2 -> Part\n\
        found 2 fresh -> Taken(Hit, None)\n\
        read 2 -> Data(b\"ru\")\n\
        feed 9 st -> Done\n\
        read 2 -> Data(b\"st\")\n\
        read 2 -> Finished\n\
        close 9 -> Stored { size: 4, evicted: 0 }\n\
        look 1 -> Hit(4)\n\
        found 1 fresh -> Taken(Hit, None)\n\
        read 1 -> Data(b\"rust\")\n\
        read 1 -> Finished\n\
        stat -> 4 in 1, Totals { weight: 4, items: 1, evicted_weight: 0, evicted_items: 0 }, 0 before\n";
    play_on_policies(&rt, rt.alloc(), Limits::weight(9), NONE, rows);
    play_on_both(&rt, rt.alloc(), Limits::weight(9), NONE, rows);
}

// A put evicts what a request stored, and is itself evicted.
#[test]
fn the_older_goes(rt: HostRuntime) {
    let rows = "put 9 l -> Done\n\
        feed 9 head -> Done\n\
        feed 9 rust -> Done\n\
        close 9 -> Stored { size: 4, evicted: 1 }\n\
        put 9 m -> Done\n\
        feed 9 endless -> Done\n\
        feed 9 ab -> Done\n\
        close 9 -> Stored { size: 2, evicted: 1 }\n\
        put 9 n 3 -> Done\n\
        feed 9 head -> NotCached(ResponseTooLarge)\n\
        close 9 -> NotCached(ResponseTooLarge)\n\
        stat -> 2 in 1, Totals { weight: 2, items: 1, evicted_weight: 6, evicted_items: 2 }, 0 before\n";
    play_on_both(&rt, rt.alloc(), Limits::weight(5), super::FILLED, rows);
}

// What is not to be stored is not, and of the response whose end is missing nothing stays.
#[test]
fn nothing_is_stored(rt: HostRuntime) {
    let rows = "put 9 k -> Done\n\
        feed 9 no_store -> NotCached(OriginNotCache)\n\
        feed 9 ru -> NotCached(OriginNotCache)\n\
        close 9 -> NotCached(OriginNotCache)\n\
        put 9 k -> Done\n\
        feed 9 no_age -> NotCached(OriginNotCache)\n\
        drop 9 -> Done\n\
        put 9 k -> Done\n\
        feed 9 head -> Done\n\
        feed 9 ru -> Done\n\
        close 9 -> Refused(IncompleteHttpBody)\n\
        put 9 k -> Done\n\
        feed 9 begun -> Done\n\
        close 9 -> Refused(IncompleteHttpBody)\n\
        put 9 k 3 -> Done\n\
        feed 9 endless -> Done\n\
        feed 9 rus -> Done\n\
        feed 9 t -> Refused(ResponseTooLarge)\n\
        feed 9 x -> Refused(ResponseTooLarge)\n\
        close 9 -> Refused(ResponseTooLarge)\n\
        open 1 -> Done\n\
        key 1 k -> Done\n\
        look 1 -> NotFound(Some(Write))\n\
        stat -> 0 in 0, Totals { weight: 0, items: 0, evicted_weight: 0, evicted_items: 0 }, 0 before\n";
    play_on_both(&rt, rt.alloc(), Limits::weight(9), NONE, rows);
}

// A call of a request is wrong on the number of a put, and the other way round.
#[test]
fn of_one_kind_each(rt: HostRuntime) {
    let rows = "put 9 k -> Done\n\
        feed 9 head -> Done\n\
        open 9 -> WrongCall\n\
        put 9 k -> WrongCall\n\
        key 9 k -> WrongCall\n\
        look 9 -> WrongCall\n\
        finish 9 -> WrongCall\n\
        read 9 -> WrongCall\n\
        purge 9 -> WrongCall\n\
        wait 9 -> WrongCall\n\
        give 9 -> WrongCall\n\
        phase 9 -> WrongCall\n\
        end 9 -> WrongCall\n\
        open 1 -> Done\n\
        put 1 k -> WrongCall\n\
        feed 1 x -> WrongCall\n\
        drop 1 -> WrongCall\n\
        close 1 -> WrongCall\n\
        key 1 k -> Done\n\
        purge 1 -> Purged\n\
        feed 9 rust -> Done\n\
        close 9 -> Refused(WriteRemoved)\n\
        feed 9 x -> WrongCall\n\
        close 9 -> WrongCall\n\
        drop 9 -> WrongCall\n\
        open 9 -> Done\n";
    play_on_both(&rt, rt.alloc(), Limits::weight(9), NONE, rows);
}
