//! Rows of validation and invalidation: a case a line, with its section above. Expected values are those of RFC 9110 and RFC 9111:
//! their own examples, and cases written from their sentences.
mod heads;

use crate::desk::{Desk, Told, number, play, word};
use crate::validation::heads::{fields, request, response, status, stored};
use http::Method;
use http_header::{HeaderMap, HeaderName, HeaderValue};
use pcache_base::error::Error;
use pcache_base::moment::Moment;
use pcache_validation::answers::after_validation;
use pcache_validation::asking::{if_modified_since, if_none_match};
use pcache_validation::conditions::{Answered, answer_to, serves_range};
use pcache_validation::entity_tag::EntityTag;
use pcache_validation::freshening::identifies;
use pcache_validation::heads::after_head;
use pcache_validation::not_modified::is_sent;
use pcache_validation::unsafe_methods::{Invalidated, invalidates, taken_away};
use pcache_validation::updating::{StoredBody, updated};
use std::alloc::Global;
use url::Url;

#[derive(Drop)]
struct Decisions {
    alloc: Global,
}

// The words of a call, and the two texts of fields behind bars.
fn split(call: &'static str) -> (&'static str, &'static str, &'static str) {
    let (words, rest) = call.split_once('|').unwrap_or((call, ""));
    let (one, other) = rest.split_once('|').unwrap_or((rest, ""));
    (words, one, other)
}

impl Desk for Decisions {
    fn tell(&mut self, call: &'static str, told: &mut Told) {
        let (words, one, other) = split(call);
        match word(words, 0) {
            "read" => tell_tag(word(words, 1), told),
            "compare" => tell_compared(word(words, 1), word(words, 2), told),
            "answer" => self.answer(words, one, other, told),
            "range" => self.range(words, one, other, told),
            "sent" => self.sent(words, one, told),
            "ask" => self.ask(one, told),
            "after" => self.after(words, told),
            "select" => self.select(words, one, other, told),
            "update" => self.update(words, one, other, told),
            "head" => self.head(words, one, other, told),
            "unsafe" => self.is_unsafe(words, told),
            "away" => self.away(words, one, told),
            _ => told.say("no such call"),
        }
    }
}

fn tell_tag(text: &str, told: &mut Told) {
    match EntityTag::read(text.as_bytes()) {
        Some(tag) => {
            told.say(if tag.is_weak() { "weak " } else { "strong " });
            told.bytes(tag.opaque());
        }
        None => told.say("none"),
    }
}

fn tell_compared(one: &str, other: &str, told: &mut Told) {
    match (
        EntityTag::read(one.as_bytes()),
        EntityTag::read(other.as_bytes()),
    ) {
        (Some(one), Some(other)) => {
            told.yes_or_no(one.strongly_matches(&other));
            told.say(" ");
            told.yes_or_no(one.weakly_matches(&other));
        }
        _ => told.say("none"),
    }
}

fn tell_value(value: Option<&HeaderValue>, told: &mut Told) {
    match value {
        Some(value) => told.bytes(value.as_bytes()),
        None => told.say("none"),
    }
}

fn tell_lines(headers: &HeaderMap, name: &str, told: &mut Told) {
    if !headers.contains_key(name) {
        told.say("none");
    }
    for value in headers.get_all(name).iter() {
        told.bytes(value.as_bytes());
        told.say(";");
    }
}

impl Decisions {
    fn answer(
        &self,
        words: &'static str,
        kept: &'static str,
        asked: &'static str,
        told: &mut Told,
    ) {
        let meta = stored(self.alloc, word(words, 2), kept);
        let request = request(self.alloc, word(words, 1), asked);
        match (&request, &meta) {
            (Some(request), Some(meta)) => {
                let gets_304 = answer_to(request, meta) == Answered::NotModified;
                told.say(if gets_304 { "304" } else { "full" });
            }
            _ => told.say("no heads"),
        }
    }

    fn range(&self, words: &'static str, kept: &'static str, asked: &'static str, told: &mut Told) {
        let meta = stored(self.alloc, "200", kept);
        let request = request(self.alloc, word(words, 1), asked);
        match (&request, &meta) {
            (Some(request), Some(meta)) => told.yes_or_no(serves_range(request, meta)),
            _ => told.say("no heads"),
        }
    }

    fn sent(&self, words: &'static str, kept: &'static str, told: &mut Told) {
        let kept = fields(self.alloc, kept);
        let name = HeaderName::from_bytes(self.alloc, word(words, 1).as_bytes());
        match (&kept, &name) {
            (Some(kept), Ok(name)) => told.yes_or_no(is_sent(kept, name)),
            _ => told.say("no heads"),
        }
    }

    fn ask(&self, kept: &'static str, told: &mut Told) {
        let kept = fields(self.alloc, kept);
        match &kept {
            Some(kept) => {
                tell_value(if_none_match(kept), told);
                told.say(", ");
                tell_value(if_modified_since(kept), told);
            }
            None => told.say("no heads"),
        }
    }

    fn after(&self, words: &'static str, told: &mut Told) {
        let meta = stored(self.alloc, "200", "");
        let code = word(words, 1);
        let answer = if code == "none" {
            None
        } else {
            Some(status(code))
        };
        match &meta {
            Some(meta) => {
                let prohibited = word(words, 3) == "prohibited";
                let now = Moment::from_secs(number(words, 2));
                told.named(&after_validation(answer, meta, prohibited, now));
            }
            None => told.say("no heads"),
        }
    }

    fn select(&self, words: &'static str, new: &'static str, kept: &'static str, told: &mut Told) {
        let new = fields(self.alloc, new);
        let kept = fields(self.alloc, kept);
        match (&new, &kept) {
            (Some(new), Some(kept)) => {
                told.yes_or_no(identifies(new, kept, word(words, 1) == "alone"));
            }
            _ => told.say("no heads"),
        }
    }

    fn update(&self, words: &'static str, kept: &'static str, new: &'static str, told: &mut Told) {
        let kept = fields(self.alloc, kept);
        let new = fields(self.alloc, new);
        match (&kept, &new) {
            (Some(kept), Some(new)) => tell_updated(kept, new, words, told),
            _ => told.say("no heads"),
        }
    }

    fn head(&self, words: &'static str, head: &'static str, kept: &'static str, told: &mut Told) {
        let head = response(self.alloc, word(words, 1), head);
        let meta = stored(self.alloc, "200", kept);
        match (&head, &meta) {
            (Some(head), Some(meta)) => told.named(&after_head(head, meta)),
            _ => told.say("no heads"),
        }
    }

    fn is_unsafe(&self, words: &'static str, told: &mut Told) {
        match Method::from_bytes(self.alloc, word(words, 1).as_bytes()) {
            Ok(method) => told.yes_or_no(invalidates(&method, status(word(words, 2)))),
            Err(_) => told.say("no method"),
        }
    }

    fn away(&self, words: &'static str, response: &'static str, told: &mut Told) {
        let fields = fields(self.alloc, response);
        let target = Url::parse(self.alloc, word(words, 1));
        match (&fields, &target) {
            (Some(fields), Ok(target)) => tell_away(target, fields, told),
            _ => told.say("no heads"),
        }
    }
}

fn tell_updated(kept: &HeaderMap, new: &HeaderMap, words: &'static str, told: &mut Told) {
    let body = if word(words, 1) == "processed" {
        StoredBody::Processed
    } else {
        StoredBody::AsReceived
    };
    match updated(kept, new, body) {
        Ok(headers) => tell_lines(&headers, word(words, 2), told),
        Err(refused) => told.refused(&refused),
    }
}

fn tell_away(target: &Url, response: &HeaderMap, told: &mut Told) {
    match taken_away(target, response) {
        Ok(
            Invalidated {
                location,
                content_location,
            },
        ) => {
            tell_url(location.as_ref(), told);
            told.say(", ");
            tell_url(content_location.as_ref(), told);
        }
        Err(refused) => told.refused(&Error::from(refused)),
    }
}

fn tell_url(url: Option<&Url>, told: &mut Told) {
    match url {
        Some(url) => told.say(url.as_str()),
        None => told.say("none"),
    }
}

const ROWS: &str = r#"
    # RFC 9110, 8.8.3: entity tags, and the examples there
    read "xyzzy" -> strong xyzzy
    read W/"xyzzy" -> weak xyzzy
    read "" -> strong
    read w/"xyzzy" -> none
    read xyzzy -> none
    read "xy"zzy" -> none
    read "xyzzy -> none
    read " -> none
    read W/ -> none
    # RFC 9110, 8.8.3.2: the table of weak and strong comparison
    compare W/"1" W/"1" -> no yes
    compare W/"1" W/"2" -> no no
    compare W/"1" "1" -> no yes
    compare "1" "1" -> yes yes
    compare "1" "2" -> no no
    # RFC 9110, 13.1.2: If-None-Match, and the examples there
    answer GET 200|ETag: "xyzzy"|If-None-Match: "xyzzy" -> 304
    answer GET 200|ETag: "xyzzy"|If-None-Match: W/"xyzzy" -> 304
    answer GET 200|ETag: W/"xyzzy"|If-None-Match: "xyzzy" -> 304
    answer GET 200|ETag: "xyzzy"|If-None-Match: "xyzzy", "r2d2xxxx", "c3piozzzz" -> 304
    answer GET 200|ETag: "c3piozzzz"|If-None-Match: W/"xyzzy", W/"r2d2xxxx", W/"c3piozzzz" -> 304
    answer GET 200|ETag: "a,b"|If-None-Match: "x", "a,b" -> 304
    answer GET 200|ETag: "b"|If-None-Match: "a,"b"" -> full
    answer GET 200|ETag: "c3piozzzz"|If-None-Match: "xyzzy" & If-None-Match: "c3piozzzz" -> 304
    answer GET 200|ETag: "other"|If-None-Match: "xyzzy", "r2d2xxxx" -> full
    answer GET 200|ETag: "xyzzy"|If-None-Match: ,"a", , "xyzzy" , -> 304
    answer GET 200|ETag: "xyzzy"|If-None-Match: * -> 304
    answer GET 200||If-None-Match: * -> 304
    answer GET 200||If-None-Match: "xyzzy" -> full
    answer GET 200|ETag: xyzzy|If-None-Match: xyzzy -> full
    answer HEAD 200|ETag: "xyzzy"|If-None-Match: "xyzzy" -> 304
    # RFC 9110, 13.2.1: other methods, and other statuses
    answer POST 200|ETag: "xyzzy"|If-None-Match: "xyzzy" -> full
    answer GET 404|ETag: "xyzzy"|If-None-Match: "xyzzy" -> full
    answer GET 206|ETag: "xyzzy"|If-None-Match: "xyzzy" -> 304
    # RFC 9110, 13.1.3: If-Modified-Since, with the date of its example
    answer GET 200|Last-Modified: Sat, 29 Oct 1994 19:43:31 GMT|If-Modified-Since: Sat, 29 Oct 1994 19:43:31 GMT -> 304
    answer GET 200|Last-Modified: Sat, 29 Oct 1994 19:43:30 GMT|If-Modified-Since: Sat, 29 Oct 1994 19:43:31 GMT -> 304
    answer GET 200|Last-Modified: Sat, 29 Oct 1994 19:43:32 GMT|If-Modified-Since: Sat, 29 Oct 1994 19:43:31 GMT -> full
    answer GET 200|Last-Modified: Saturday, 29-Oct-94 19:43:31 GMT|If-Modified-Since: Sat Oct 29 19:43:31 1994 -> 304
    answer GET 200|Last-Modified: Sat, 29 Oct 1994 19:43:31 GMT|If-Modified-Since: yesterday -> full
    answer GET 200|Last-Modified: yesterday|If-Modified-Since: Sat, 29 Oct 1994 19:43:31 GMT -> full
    answer GET 200|Last-Modified: Sat, 29 Oct 1994 19:43:31 GMT|If-Modified-Since: Sat, 29 Oct 1994 19:43:31 GMT & If-Modified-Since: Sat, 29 Oct 1994 19:43:31 GMT -> full
    # RFC 9110, 13.2.2: with If-None-Match it is ignored
    answer GET 200|ETag: "a" & Last-Modified: Sat, 29 Oct 1994 19:43:31 GMT|If-None-Match: "b" & If-Modified-Since: Sat, 29 Oct 1994 19:43:31 GMT -> full
    answer GET 200|ETag: "a" & Last-Modified: Sat, 29 Oct 1994 19:43:31 GMT|If-None-Match: "a" & If-Modified-Since: Sat, 29 Oct 1994 19:43:30 GMT -> 304
    # RFC 9111, 4.3.2: without Last-Modified by Date; without that by when it was received, 00:16:40
    answer GET 200|Date: Sat, 29 Oct 1994 19:43:31 GMT|If-Modified-Since: Sat, 29 Oct 1994 19:43:31 GMT -> 304
    answer GET 200|Date: Sat, 29 Oct 1994 19:43:32 GMT|If-Modified-Since: Sat, 29 Oct 1994 19:43:31 GMT -> full
    answer GET 200||If-Modified-Since: Thu, 01 Jan 1970 00:16:40 GMT -> 304
    answer GET 200||If-Modified-Since: Thu, 01 Jan 1970 00:16:39 GMT -> full
    # RFC 9111, 4.3.2: If-Match and If-Unmodified-Since are not evaluated
    answer GET 200|ETag: "a"|If-Match: "b" -> full
    answer GET 200|ETag: "a"|If-Match: "b" & If-None-Match: "a" -> 304
    answer GET 200|ETag: "a"| -> full
    # RFC 9110, 13.1.5: If-Range
    range GET|ETag: "a"|Range: bytes=0-1 -> yes
    range GET|ETag: "a"|Range: bytes=0-1 & If-Range: "a" -> yes
    range GET|ETag: "a"|Range: bytes=0-1 & If-Range: "b" -> no
    range GET|ETag: W/"a"|Range: bytes=0-1 & If-Range: W/"a" -> no
    range GET|ETag: "a"|If-Range: "a" -> no
    range HEAD|ETag: "a"|Range: bytes=0-1 -> no
    range GET|Last-Modified: Sat, 29 Oct 1994 19:43:31 GMT|Range: bytes=0-1 & If-Range: Sat, 29 Oct 1994 19:43:31 GMT -> no
    # RFC 9110, 15.4.5: fields of a 304
    sent content-location| -> yes
    sent date| -> yes
    sent etag|ETag: "a" -> yes
    sent vary| -> yes
    sent cache-control| -> yes
    sent expires| -> yes
    sent last-modified|X-A: 1 -> yes
    sent last-modified|ETag: "a" -> no
    sent content-type| -> no
    # RFC 9111, 4.3.1: validators to send
    ask|ETag: "a" & Last-Modified: Sat, 29 Oct 1994 19:43:31 GMT & Date: Sun, 30 Oct 1994 19:43:31 GMT -> "a", Sat, 29 Oct 1994 19:43:31 GMT
    ask|ETag: W/"a" -> W/"a", none
    ask|Date: Sun, 30 Oct 1994 19:43:31 GMT -> none, Sun, 30 Oct 1994 19:43:31 GMT
    ask|ETag: a & Last-Modified: yesterday & Date: Sun, 30 Oct 1994 19:43:31 GMT -> none, none
    # RFC 9111, 4.3.3, and RFC 5861, 4: the window ends at second 1,060
    after 304 1001 -> Unchanged
    after 200 1001 -> PassOn
    after 500 1060 -> ServeStale
    after 502 1060 -> ServeStale
    after 503 1060 -> ServeStale
    after 504 1060 -> ServeStale
    after none 1060 -> ServeStale
    after 501 1060 -> PassOn
    after 500 1061 -> PassOn
    after 500 1060 prohibited -> PassOn
    after 404 1060 -> PassOn
    # RFC 9111, 4.3.4: by a strong validator
    select any|ETag: "a"|ETag: "a" -> yes
    select alone|ETag: "a"|ETag: "b" -> no
    select alone|ETag: "a"|ETag: W/"a" -> no
    select alone|ETag: "a"| -> no
    # by weak ones
    select any|ETag: W/"a"|ETag: W/"a" -> yes
    select any|ETag: W/"a"|ETag: "a" -> yes
    select alone|ETag: W/"a"|ETag: W/"b" -> no
    select any|Last-Modified: Sat, 29 Oct 1994 19:43:31 GMT|Last-Modified: Sat, 29 Oct 1994 19:43:31 GMT -> yes
    select alone|Last-Modified: Sat, 29 Oct 1994 19:43:31 GMT|Last-Modified: Sat, 29 Oct 1994 19:43:32 GMT -> no
    # by none
    select alone|| -> yes
    select any|| -> no
    select alone||ETag: "a" -> no
    select alone||Last-Modified: Sat, 29 Oct 1994 19:43:31 GMT -> no
    # RFC 9111, 3.2: fields that are replaced, added, kept
    update received x-a|X-A: 1 & X-A: 2|X-A: 3 -> 3;
    update received x-a|X-B: 1|X-A: 3 & X-A: 4 -> 3;4;
    update received x-b|X-B: 1|X-A: 3 -> 1;
    update received etag|ETag: "a"|ETag: "b" -> "b";
    # and left out (3.1 and 3.2)
    update received content-length|Content-Length: 5|Content-Length: 0 -> 5;
    update received content-range|X-B: 1|Content-Range: bytes 0-1/2 -> none
    update received x-a|X-A: 1|X-A: 3 & Connection: close, x-a -> 1;
    update received connection|X-A: 1|X-A: 3 & Connection: close -> none
    update received keep-alive|X-A: 1|Keep-Alive: timeout=5 -> none
    update received proxy-authenticate|X-A: 1|Proxy-Authenticate: Basic -> none
    update received proxy-authentication-info|X-A: 1|Proxy-Authentication-Info: x -> none
    update received proxy-authorization|X-A: 1|Proxy-Authorization: x -> none
    update received transfer-encoding|X-A: 1|Transfer-Encoding: chunked -> none
    update received content-type|Content-Type: a/b|Content-Type: c/d -> c/d;
    update received content-encoding|Content-Encoding: gzip|Content-Encoding: br -> br;
    update processed content-type|Content-Type: a/b|Content-Type: c/d -> a/b;
    update processed content-encoding|Content-Encoding: gzip|Content-Encoding: br -> gzip;
    # RFC 9111, 4.3.5: HEAD
    head 200|ETag: "a" & Content-Length: 5|ETag: "a" & Content-Length: 5 -> Updated
    head 200|X-A: 1|ETag: "a" & Content-Length: 5 -> Updated
    head 200|ETag: "b"|ETag: "a" -> Stale
    head 200|ETag: "a"|X-A: 1 -> Stale
    head 200|Content-Length: 6|ETag: "a" & Content-Length: 5 -> Stale
    head 200|Last-Modified: Sat, 29 Oct 1994 19:43:31 GMT|Last-Modified: Sat, 29 Oct 1994 19:43:32 GMT -> Stale
    head 404|ETag: "b"|ETag: "a" -> Untouched
    # RFC 9111, 4.4, and RFC 9110, 9.2.1: unsafe methods, and statuses that are no error
    unsafe PUT 200 -> yes
    unsafe POST 201 -> yes
    unsafe DELETE 204 -> yes
    unsafe PATCH 302 -> yes
    unsafe FOO 200 -> yes
    unsafe get 200 -> yes
    unsafe POST 199 -> no
    unsafe POST 400 -> no
    unsafe POST 399 -> yes
    unsafe PUT 500 -> no
    unsafe GET 200 -> no
    unsafe HEAD 200 -> no
    unsafe OPTIONS 200 -> no
    unsafe TRACE 200 -> no
    # RFC 9111, 4.4: Location and Content-Location of the same origin (RFC 9110, 4.3.1)
    away http://a.example/x|Location: /y -> http://a.example/y, none
    away http://a.example/x|Location: http://a.example:80/y & Content-Location: z -> http://a.example/y, http://a.example/z
    away http://a.example/x|Location: http://A.Example/y -> http://a.example/y, none
    away http://a.example/x|Location: http://b.example/y & Content-Location: https://a.example/z -> none, none
    away http://a.example/x|Location: http://a.example:8080/y -> none, none
    away http://a.example/x|Location: /y & Location: /z -> none, none
    away http://a.example/x|X-A: 1 -> none, none"#;

#[test]
fn sections_of_the_rfcs(rt: HostRuntime) {
    let mut desk = Decisions { alloc: rt.alloc() };
    play(&rt, rt.alloc(), &mut desk, ROWS);
}
