//! Rows of what becomes of requests and responses (RFC 9111), by one call each. What is stored is a 200 that was received at
//! second 1,000, which is 00:16:40 of the first day of 1970.
//!
//! A request: `METHOD NOW / its fields / the fields that the response was stored for / the stored fields`, where `-` says that
//! nothing is stored. A response: `METHOD STATUS NOW / the request's fields / the stored fields / its fields`, where `-` says that
//! the request had no condition of the cache.
use crate::desk::{Desk, Told, number, part, play, word};
use crate::heads::fields;
use crate::storing::request;
use http::StatusCode;
use http_header::{HeaderMap, HeaderValue};
use pcache_base::moment::Moment;
use pcache_decisions::requests::{Decision, Validation, decide_request};
use pcache_decisions::responses::{Kept, Outcome, Validating, decide_response};
use pcache_decisions::stored::StoredResponse;
use pcache_http::rules::Rules;
use pcache_meta::header::{HttpVersion, RequestHeader, ResponseHeader};
use pcache_validation::updating::StoredBody;
use std::alloc::Global;
use std::test::Fail;

fn head(status: StatusCode, headers: HeaderMap) -> ResponseHeader {
    ResponseHeader {
        version: HttpVersion::Http11,
        status,
        headers,
    }
}

fn lent<'a>(head: &'a ResponseHeader, original: &'a HeaderMap) -> StoredResponse<'a> {
    StoredResponse {
        head,
        original,
        requested: Moment::from_secs(1000),
        received: Moment::from_secs(1000),
    }
}

#[derive(Drop)]
struct Requests {
    alloc: Global,
}

impl Desk for Requests {
    fn tell(&mut self, call: &'static str, told: &mut Told) {
        let Some(asked) = fields(self.alloc, part(call, 1)) else {
            return;
        };
        let words = part(call, 0);
        let Some(request) = request(self.alloc, word(words, 0), asked) else {
            return;
        };
        let now = Moment::from_secs(number(words, 1));
        if part(call, 3) == "-" {
            tell_decision(
                decide_request(&Rules::of_a_proxy(), &request, None, now),
                told,
            );
        } else {
            self.decide(&request, part(call, 2), part(call, 3), now, told);
        }
    }
}

impl Requests {
    fn decide(
        &self,
        request: &RequestHeader,
        original: &'static str,
        stored: &'static str,
        now: Moment,
        told: &mut Told,
    ) {
        let Some(original) = fields(self.alloc, original) else {
            return;
        };
        let Some(stored) = fields(self.alloc, stored) else {
            return;
        };
        let head = head(StatusCode::OK, stored);
        let stored = lent(&head, &original);
        let decision = decide_request(&Rules::of_a_proxy(), request, Some(&stored), now);
        tell_decision(decision, told);
    }
}

fn tell_decision(decision: Decision<'_>, told: &mut Told) {
    match decision {
        Decision::Serve(served) => {
            told.named(&served.reuse);
            told.say(" ");
            told.number(u64::from(served.age));
            told.say(" ");
            told.named(&served.answer);
        }
        Decision::Validate(validation) => tell_validation(&validation, told),
        Decision::Fetch => told.say("fetch"),
        Decision::OnlyIfCached504 => told.say("504"),
    }
}

fn tell_validation(validation: &Validation<'_>, told: &mut Told) {
    told.say("validate ");
    tell_value(validation.if_none_match, told);
    told.say(" ");
    tell_value(validation.if_modified_since, told);
}

fn tell_value(value: Option<&HeaderValue>, told: &mut Told) {
    match value {
        Some(value) => told.bytes(value.as_bytes()),
        None => told.say("none"),
    }
}

#[derive(Drop)]
struct Responses {
    alloc: Global,
}

impl Desk for Responses {
    fn tell(&mut self, call: &'static str, told: &mut Told) {
        let Some(asked) = fields(self.alloc, part(call, 1)) else {
            return;
        };
        let Some(came) = fields(self.alloc, part(call, 3)) else {
            return;
        };
        let words = part(call, 0);
        let Some(request) = request(self.alloc, word(words, 0), asked) else {
            return;
        };
        let Ok(status) = StatusCode::from_bytes(word(words, 1).as_bytes()) else {
            return;
        };
        let now = Moment::from_secs(number(words, 2));
        self.decide(&request, part(call, 2), &head(status, came), now, told);
    }
}

impl Responses {
    fn decide(
        &self,
        request: &RequestHeader,
        stored: &'static str,
        response: &ResponseHeader,
        now: Moment,
        told: &mut Told,
    ) {
        let rules = Rules::of_a_proxy();
        if stored == "-" {
            tell_outcome(decide_response(&rules, request, None, response, now), told);
            return;
        }
        let Some(stored) = fields(self.alloc, stored) else {
            return;
        };
        let original = HeaderMap::new(self.alloc);
        let head = head(StatusCode::OK, stored);
        let validated = Validating {
            stored: lent(&head, &original),
            alone: true,
            body: StoredBody::AsReceived,
        };
        let outcome = decide_response(&rules, request, Some(&validated), response, now);
        tell_outcome(outcome, told);
    }
}

fn tell_outcome(outcome: pcache_base::error::Result<Outcome>, told: &mut Told) {
    match outcome {
        Ok(outcome) => tell_done(&outcome, told),
        Err(refused) => told.refused(&refused),
    }
}

fn tell_done(outcome: &Outcome, told: &mut Told) {
    match outcome {
        Outcome::Store(kept) => tell_kept("store ", kept, told),
        Outcome::Freshen(freshened) => {
            tell_kept("freshen ", &freshened.kept, told);
            told.say(" ");
            told.named(&freshened.storing);
            told.say(" ");
            told.named(&freshened.answer);
        }
        Outcome::FetchAgain => told.say("again"),
        Outcome::ServeStale(stale) => {
            told.say("stale ");
            told.number(u64::from(stale.age));
            told.say(" ");
            told.named(&stale.answer);
        }
        Outcome::Update(kept) => tell_kept("update ", kept, told),
        Outcome::MarkStale => told.say("mark stale"),
        Outcome::Invalidate => told.say("invalidate"),
        Outcome::PassOn(reason) => told.named(reason),
    }
}

// What is stored: its lifetime, its Age and its X.
fn tell_kept(what: &'static str, kept: &Kept, told: &mut Told) {
    told.say(what);
    told.number(u64::from(kept.lifetime.seconds()));
    told.say(" ");
    tell_value(kept.head.headers.get("age"), told);
    told.say(" ");
    tell_value(kept.head.headers.get("x"), told);
}

#[test]
fn what_becomes_of_requests(rt: HostRuntime) -> Result<(), Fail> {
    let mut desk = Requests { alloc: rt.alloc() };
    play(&rt, rt.alloc(), &mut desk, REQUESTS);
    Ok(())
}

#[test]
fn what_becomes_of_responses(rt: HostRuntime) -> Result<(), Fail> {
    let mut desk = Responses { alloc: rt.alloc() };
    play(&rt, rt.alloc(), &mut desk, RESPONSES);
    Ok(())
}

const REQUESTS: &str = "\
    # 4: without a stored response the request is forwarded, and 5.2.1.7: unless only a stored one is wanted
    GET 1010 / / / - -> fetch
    GET 1010 / Cache-Control: only-if-cached / / - -> 504
    # 4 and 5.1: a fresh one is served with its age
    GET 1010 / / / Cache-Control: max-age=60 -> Fresh 10 Full
    HEAD 1010 / / / Cache-Control: max-age=60 -> Fresh 10 Full
    GET 1010 / / / Cache-Control: max-age=60 | Age: 30 -> Fresh 40 Full
    # 4: an unsafe method is written through, also with only-if-cached
    POST 1010 / / / Cache-Control: max-age=60 -> fetch
    POST 1010 / Cache-Control: only-if-cached / / Cache-Control: max-age=60 -> fetch
    OPTIONS 1010 / / / Cache-Control: max-age=60 -> fetch
    # 4.1: Vary
    GET 1010 / A: 1 / A: 1 / Cache-Control: max-age=60 | Vary: A -> Fresh 10 Full
    GET 1010 / A: 1 / A: 2 / Cache-Control: max-age=60 | Vary: A -> fetch
    GET 1010 / A: 1 | Cache-Control: only-if-cached / A: 2 / Cache-Control: max-age=60 | Vary: A -> 504
    GET 1010 / / / Cache-Control: max-age=60 | Vary: * -> fetch
    # 4.3.1: a stale one is validated with its validators
    GET 1060 / / / Cache-Control: max-age=60 | ETag: \"a\" -> validate \"a\" none
    GET 1060 / If-None-Match: \"b\" / / Cache-Control: max-age=60 | ETag: \"a\" -> validate \"a\" none
    GET 1060 / / / Cache-Control: max-age=60 -> validate none none
    GET 1060 / Cache-Control: only-if-cached / / Cache-Control: max-age=60 | ETag: \"a\" -> 504
    # 5.2.2.4 and 5.2.1.4: no-cache
    GET 1010 / / / Cache-Control: max-age=60, no-cache | ETag: \"a\" -> validate \"a\" none
    GET 1010 / Cache-Control: no-cache / / Cache-Control: max-age=60 | ETag: \"a\" -> validate \"a\" none
    # RFC 5861 3, and 5.2.1.2
    GET 1070 / / / Cache-Control: max-age=60, stale-while-revalidate=30 -> WhileRevalidating 70 Full
    GET 1070 / Cache-Control: max-stale / / Cache-Control: max-age=60 -> AcceptedStale 70 Full
    # 4.3.2: the client's own conditions
    GET 1010 / If-None-Match: \"a\" / / Cache-Control: max-age=60 | ETag: \"a\" -> Fresh 10 NotModified
    GET 1010 / If-None-Match: \"b\" / / Cache-Control: max-age=60 | ETag: \"a\" -> Fresh 10 Full
    GET 1010 / If-Modified-Since: Thu, 01 Jan 1970 00:16:40 GMT / / Cache-Control: max-age=60 -> Fresh 10 NotModified
    # RFC 9110 13.1.5 and 14.2: a range, and 13.2.2: after the other conditions
    GET 1010 / Range: bytes=0-1 / / Cache-Control: max-age=60 | ETag: \"a\" -> Fresh 10 Range
    GET 1010 / Range: bytes=0-1 | If-Range: \"b\" / / Cache-Control: max-age=60 | ETag: \"a\" -> Fresh 10 Full
    GET 1010 / Range: bytes=0-1 | If-None-Match: \"a\" / / Cache-Control: max-age=60 | ETag: \"a\" -> Fresh 10 NotModified
    HEAD 1010 / Range: bytes=0-1 / / Cache-Control: max-age=60 | ETag: \"a\" -> Fresh 10 Full
";

const RESPONSES: &str = "\
    # 3: stored if it may be, without the fields of 3.1
    GET 200 1000 / / - / Cache-Control: max-age=60 | X: 1 -> store 60 none 1
    GET 200 1000 / / - / Cache-Control: max-age=60, no-cache=\"x\" | X: 1 -> store 60 none none
    GET 200 1000 / / - / Cache-Control: max-age=60 | Connection: x | X: 1 -> store 60 none none
    GET 200 1000 / / - / Cache-Control: no-store -> NoStoreSaid
    GET 200 1000 / Cache-Control: no-store / - / Cache-Control: max-age=60 -> NoStoreAsked
    GET 200 1000 / Authorization: x / - / Cache-Control: max-age=60 -> Authorized
    HEAD 200 1000 / / - / Cache-Control: max-age=60 -> MethodNotUnderstood
    # 4.3.4: a 304 that the client asked for is passed on
    GET 304 1000 / If-None-Match: \"a\" / - / ETag: \"a\" -> StatusNotUnderstood
    # 4.3.4 and 3.2: a 304 updates the stored response that it identifies
    GET 304 1100 / / ETag: \"a\" | Cache-Control: max-age=60 | X: 1 / ETag: \"a\" -> freshen 60 none 1 Stored Full
    GET 304 1100 / / ETag: \"a\" | Cache-Control: max-age=60 | X: 1 / ETag: \"a\" | Cache-Control: max-age=5 | X: 2 -> freshen 5 none 2 Stored Full
    GET 304 1100 / If-None-Match: \"a\" / ETag: \"a\" | Cache-Control: max-age=60 / ETag: \"a\" -> freshen 60 none none Stored NotModified
    GET 304 1100 / / Cache-Control: max-age=60 / -> freshen 60 none none Stored Full
    # 4.2.3: a stored Age says nothing of the 304
    GET 304 1100 / / ETag: \"a\" | Cache-Control: max-age=60 | Age: 59 / ETag: \"a\" -> freshen 60 none none Stored Full
    GET 304 1100 / / ETag: \"a\" | Cache-Control: max-age=60 | Age: 59 / ETag: \"a\" | Age: 3 -> freshen 60 3 none Stored Full
    # 3.1: what would not be stored of the 304 is not brought in
    GET 304 1100 / / ETag: \"a\" | Cache-Control: max-age=60 | X: 1 / ETag: \"a\" | Cache-Control: max-age=60, no-cache=\"x\" | X: 2 -> freshen 60 none 1 Stored Full
    # 5.2.2.5 and 5.2.1.5: nothing of it is stored
    GET 304 1100 / / ETag: \"a\" | Cache-Control: max-age=60 / ETag: \"a\" | Cache-Control: no-store -> freshen 0 none none NotStored(NoStoreSaid) Full
    GET 304 1100 / Cache-Control: no-store / ETag: \"a\" | Cache-Control: max-age=60 / ETag: \"a\" -> freshen 60 none none NotStored(NoStoreAsked) Full
    # 4.3.4: one that identifies no stored response has the request sent again
    GET 304 1100 / / ETag: \"a\" | Cache-Control: max-age=60 / ETag: \"b\" -> again
    GET 304 1100 / / ETag: \"a\" | Cache-Control: max-age=60 / -> again
    # 4.3.3: a full response replaces the stored one
    GET 200 1100 / / ETag: \"a\" | Cache-Control: max-age=60 / ETag: \"b\" | Cache-Control: max-age=5 -> store 5 none none
    GET 404 1100 / / ETag: \"a\" | Cache-Control: max-age=60 / Cache-Control: no-store -> NoStoreSaid
    # 4.3.3 and RFC 5861 4: an error, and what is served in its place
    GET 503 1100 / / Cache-Control: max-age=60, stale-if-error=60 / -> stale 100 Full
    GET 503 1121 / / Cache-Control: max-age=60, stale-if-error=60 / -> NothingAllowsIt
    GET 503 1100 / / Cache-Control: max-age=60, stale-if-error=60, must-revalidate / -> NothingAllowsIt
    GET 503 1100 / If-None-Match: \"a\" / Cache-Control: max-age=60, stale-if-error=60 | ETag: \"a\" / -> stale 100 NotModified
    GET 503 1100 / / - / -> NothingAllowsIt
    # 4.3.5: a 200 to HEAD updates the stored response that it fits, by 3.2
    HEAD 200 1100 / / ETag: \"a\" | Cache-Control: max-age=60 | X: 1 / ETag: \"a\" | Cache-Control: max-age=5 | X: 2 -> update 5 none 2
    HEAD 200 1100 / / Cache-Control: max-age=60 | X: 1 / Content-Type: a/b -> update 60 none 1
    HEAD 200 1100 / / Content-Length: 3 | Cache-Control: max-age=60 / Content-Length: 3 | Age: 7 -> update 60 7 none
    HEAD 200 1100 / / Cache-Control: max-age=60 | Age: 59 / X: 2 -> update 60 none 2
    # 4.3.5: and makes one stale that it does not fit
    HEAD 200 1100 / / ETag: \"a\" | Cache-Control: max-age=60 / ETag: \"b\" | Cache-Control: max-age=60 -> mark stale
    HEAD 200 1100 / / Content-Length: 3 | Cache-Control: max-age=60 / Content-Length: 4 -> mark stale
    HEAD 200 1100 / / Cache-Control: max-age=60 / Last-Modified: Thu, 01 Jan 1970 00:00:00 GMT -> mark stale
    # 4.3.5 with 5.2.1.5 and 5.2.2.5: nothing of it is stored
    HEAD 200 1100 / Cache-Control: no-store / Cache-Control: max-age=60 / X: 2 -> NoStoreAsked
    HEAD 200 1100 / / Cache-Control: max-age=60 / Cache-Control: no-store -> NoStoreSaid
    # 4.3.5: another status does nothing, and without a stored response there is nothing to update
    HEAD 404 1100 / / Cache-Control: max-age=60 / -> MethodNotUnderstood
    HEAD 200 1100 / / - / Cache-Control: max-age=60 -> MethodNotUnderstood
    # 4.3.4: a 304 to HEAD updates what is stored as one to GET does
    HEAD 304 1100 / / ETag: \"a\" | Cache-Control: max-age=60 / ETag: \"a\" | X: 2 -> freshen 60 none 2 Stored Full
    # 4.3.3: an error after HEAD
    HEAD 503 1100 / / Cache-Control: max-age=60, stale-if-error=60 / -> stale 100 Full
    # 4.4: an unsafe method
    POST 200 1000 / / - / -> invalidate
    PUT 303 1000 / / - / Cache-Control: max-age=60 -> invalidate
    DELETE 404 1000 / / - / -> MethodNotUnderstood
    X 204 1000 / / - / -> invalidate
    OPTIONS 200 1000 / / - / Cache-Control: max-age=60 -> MethodNotUnderstood
";
