//! The calls of rows.
use crate::seats::{Lists, Request, request_for, request_without, second};
use crate::{counts, fills, looks, permits, puts, renewals};
use pcache_shared_cache::{Sight, Unnamed};
use std::mem;
use std::sync::{Mutex, Wait};
use test_rows::{Told, number, size, some_number, word};

/// What a thread has: a request, one that it can put in its place, and what it has seen of a part.
pub struct Seat {
    pub own: Request,
    pub other: Request,
    pub seen: Sight<Unnamed>,
}

/// Makes the call of a row, and writes its result.
pub fn tell<R: Wait>(
    rt: &R,
    cache: &Lists,
    hand: &Mutex<Request>,
    seat: &mut Seat,
    call: &'static str,
    told: &mut Told,
) {
    match word(call, 0) {
        "swap" => {
            mem::swap(&mut seat.own, &mut seat.other);
            told.say("ok");
        }
        "trade" => trade(rt, hand, seat, told),
        "hand" => permits::hand(rt, cache, seat, told),
        "stored" | "place" | "part" | "seen" | "sees" => counts::tell(rt, cache, seat, call, told),
        "push" => puts::tell(rt, cache, call, told),
        "key" | "end" => tell_of_way(rt, cache, &mut seat.own, call, told),
        "look" | "vary" | "read" | "follow" | "whole" | "length" | "leave" | "many" => {
            tell_of_look(rt, cache, &mut seat.own, call, told);
        }
        "miss" | "begin" | "write" | "last" | "finish" | "fill" | "limit-head" | "head" => {
            tell_of_fill(rt, cache, &mut seat.own, call, told);
        }
        "poll" | "wait" | "release" | "disable" | "tokens" | "varies" => {
            tell_of_permit(rt, cache, &mut seat.own, call, told);
        }
        _ => tell_of_renewal(rt, cache, &mut seat.own, call, told),
    }
}

// Puts the thread's request into the hand that all threads share, and takes the one that was there.
fn trade<R: Wait>(rt: &R, hand: &Mutex<Request>, seat: &mut Seat, told: &mut Told) {
    let mut there = hand.lock(rt);
    mem::swap(&mut seat.own, &mut *there);
    told.say("ok");
}

fn tell_of_way<R: Wait>(
    rt: &R,
    cache: &Lists,
    request: &mut Request,
    call: &'static str,
    told: &mut Told,
) {
    let ended = mem::replace(request, next_for(cache, call));
    let is_gone = cache.end(rt, ended).released.is_some();
    permits::tell_gone(is_gone && word(call, 0) == "end", told);
}

// The request after the one that ends.
fn next_for(cache: &Lists, call: &'static str) -> Request {
    let name = word(call, 1).as_bytes();
    match some_number(call, 2) {
        Some(token) => request_without(cache, name, token),
        None => request_for(cache, name),
    }
}

fn tell_of_look<R: Wait>(
    rt: &R,
    cache: &Lists,
    request: &mut Request,
    call: &'static str,
    told: &mut Told,
) {
    match word(call, 0) {
        "look" => looks::look(rt, cache, request, second(number(call, 1)), told),
        "vary" => looks::vary(rt, cache, request, number(call, 1), told),
        "read" => looks::read(rt, cache, request, told),
        "follow" => looks::follow(rt, cache, request, told),
        "whole" => told.yes_or_no(cache.is_body_whole(rt, request)),
        "length" => told.named(&cache.body_length(rt, request)),
        "leave" => looks::leave(rt, cache, request, told),
        _ => looks::many(rt, cache, word(call, 1), word(call, 2), told),
    }
}

fn tell_of_fill<R: Wait>(
    rt: &R,
    cache: &Lists,
    request: &mut Request,
    call: &'static str,
    told: &mut Told,
) {
    match word(call, 0) {
        "miss" => fills::miss(cache, request, number(call, 1), told),
        "begin" => fills::begin(rt, cache, request, told),
        "write" => fills::write(rt, cache, request, word(call, 1), false, told),
        "last" => fills::write(rt, cache, request, word(call, 1), true, told),
        "finish" => fills::finish(rt, cache, request, told),
        "limit-head" => fills::limit_head(request, size(call, 1), told),
        "head" => fills::head(rt, cache, request, told),
        _ => fills::fill(rt, cache, request, word(call, 1), number(call, 2), told),
    }
}

fn tell_of_permit<R: Wait>(
    rt: &R,
    cache: &Lists,
    request: &mut Request,
    call: &'static str,
    told: &mut Told,
) {
    match word(call, 0) {
        "poll" => permits::poll(rt, cache, request, second(number(call, 1)), told),
        "wait" => permits::wait(rt, cache, request, second(number(call, 1)), told),
        "release" => permits::release(rt, cache, request, word(call, 1), told),
        "disable" => permits::disable(rt, cache, request, word(call, 1), told),
        "tokens" => permits::publish(rt, cache, request, number(call, 1), told),
        _ => permits::varies(rt, cache, request, number(call, 1), told),
    }
}

fn tell_of_renewal<R: Wait>(
    rt: &R,
    cache: &Lists,
    request: &mut Request,
    call: &'static str,
    told: &mut Told,
) {
    match word(call, 0) {
        "renew" => renewals::renew(rt, cache, request, number(call, 1), told),
        "uncacheable" => renewals::uncacheable(rt, cache, request, word(call, 1), told),
        "updating" => renewals::updating(request, told),
        "expire" => renewals::expire(rt, cache, request, second(number(call, 1)), told),
        "purge" => renewals::purge(rt, cache, request, told),
        "spawn" => renewals::spawn(rt, cache, request, told),
        _ => told.say("no call"),
    }
}
