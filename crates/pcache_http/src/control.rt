//! What the Cache-Control of a request and of a response says (RFC 9111 section 5.2), read without
//! an allocation.

ghost use Rattle.std.specs.Prelude.{◌≡◌, ◌++◌, [], ◌∷◌, ℕ, List, Option, codes};
ghost use Rattle.std.specs.Option.{option_copied};
ghost use Rattle.http_header.specs.Token.{lowercase};
ghost use Rattle.pcache_http.specs.Said.{Directive, mentions, values_of};
ghost use Rattle.pcache_http.specs.Seconds.{amount_of, counted, count_next};
ghost use Rattle.pcache_http.specs.Control.{with_fields, reach_of, response_control, request_control, pragma_control};

use crate::said::{Listens, hear_lines, is_called};
use crate::seconds::{Amount, Number, amount_of};
use http_header::{CACHE_CONTROL, HeaderMap, PRAGMA};

/// For what a directive holds that may list fields.
#[derive(Clone, Copy, Debug, PartialEq, Eq)]
pub enum Reach {
    /// It is not there.
    Nothing,
    /// For the fields that it lists.
    Fields,
    /// For the whole response.
    Whole,
}

/// What the Cache-Control of a response says (RFC 9111 section 5.2.2, RFC 5861).
#[derive(Clone, Copy, Debug, PartialEq, Eq)]
pub struct ResponseControl {
    /// Whether `no-store` is there (section 5.2.2.5).
    pub no_store: bool,
    /// For what `no-cache` holds (section 5.2.2.4).
    pub no_cache: Reach,
    /// For what `private` holds (section 5.2.2.7).
    pub private: Reach,
    /// Whether `public` is there (section 5.2.2.9).
    pub public: bool,
    /// Whether `must-revalidate` is there (section 5.2.2.2).
    pub must_revalidate: bool,
    /// Whether `proxy-revalidate` is there (section 5.2.2.8).
    pub proxy_revalidate: bool,
    /// Whether `must-understand` is there (section 5.2.2.3).
    pub must_understand: bool,
    /// `max-age` (section 5.2.2.1).
    pub max_age: Number,
    /// `s-maxage` (section 5.2.2.10).
    pub s_maxage: Number,
    /// `stale-while-revalidate` (RFC 5861 section 3).
    pub stale_while_revalidate: Number,
    /// `stale-if-error` (RFC 5861 section 4).
    pub stale_if_error: Number,
}

/// What the Cache-Control of a request says, or its Pragma (RFC 9111 sections 5.2.1 and 5.4).
#[derive(Clone, Copy, Debug, PartialEq, Eq)]
pub struct RequestControl {
    /// Whether `no-cache` is there (section 5.2.1.4).
    pub no_cache: bool,
    /// Whether `no-store` is there (section 5.2.1.5).
    pub no_store: bool,
    /// Whether `only-if-cached` is there (section 5.2.1.7).
    pub only_if_cached: bool,
    /// `max-age` (section 5.2.1.1).
    pub max_age: Number,
    /// `max-stale` (section 5.2.1.2).
    pub max_stale: Number,
    /// `min-fresh` (section 5.2.1.3).
    pub min_fresh: Number,
    /// `stale-if-error` (RFC 5861 section 4).
    pub stale_if_error: Number,
}

// Whether a name was there before, or is there now.
fn mentioned(before: bool, name: &[u8], known: &[u8]) -> bool
    ensures { (said : List Directive) (value : Option (List ℕ))
        → before ≡ mentions (lowercase known.now) said
        → result ≡ mentions (lowercase known.now) (said ++ (name.now, value) ∷ []) }
{
    before || is_called(name, known)
}

// For what a directive holds that also lists fields.
fn with_fields(before: Reach) -> Reach
    ensures { result ≡ with_fields before }
{
    match before {
        Reach::Whole => Reach::Whole,
        Reach::Fields | Reach::Nothing => Reach::Fields,
    }
}

// For what a directive holds after one more.
fn reached(before: Reach, name: &[u8], value: Option<&[u8]>, known: &[u8]) -> Reach
    ensures { (said : List Directive)
        → before ≡ reach_of (values_of (lowercase known.now) said)
        → result ≡ reach_of (values_of (lowercase known.now)
        (said ++ (name.now, option_copied value.entry) ∷ [])) }
{
    if !is_called(name, known) {
        return before;
    }
    match value {
        None => Reach::Whole,
        Some(_) => with_fields(before),
    }
}

// How often something is there after one more.
fn count_next(before: Number, amount: Amount) -> Number
    ensures { result ≡ count_next before amount }
{
    match before {
        Number::Absent => Number::Once(amount),
        Number::Once(first) | Number::Repeated(first) => Number::Repeated(first),
    }
}

// How often a directive is there after one more.
fn counted(before: Number, name: &[u8], value: Option<&[u8]>, known: &[u8]) -> Number
    ensures { (said : List Directive)
        → before ≡ counted amount_of (values_of (lowercase known.now) said)
        → result ≡ counted amount_of (values_of (lowercase known.now)
        (said ++ (name.now, option_copied value.entry) ∷ [])) }
{
    if !is_called(name, known) {
        return before;
    }
    count_next(before, amount_of(value))
}

impl Listens for ResponseControl {
    ghost Heard = { λ start said now. now ≡ response_control said };

    fn hear(&mut self, name: &[u8], value: Option<&[u8]>) {
        let no_store = mentioned(self.no_store, name, b"no-store");
        let no_cache = reached(self.no_cache, name, value, b"no-cache");
        let private = reached(self.private, name, value, b"private");
        let public = mentioned(self.public, name, b"public");
        let must_revalidate = mentioned(self.must_revalidate, name, b"must-revalidate");
        let proxy_revalidate = mentioned(self.proxy_revalidate, name, b"proxy-revalidate");
        let must_understand = mentioned(self.must_understand, name, b"must-understand");
        let max_age = counted(self.max_age, name, value, b"max-age");
        let s_maxage = counted(self.s_maxage, name, value, b"s-maxage");
        let revalidate = self.stale_while_revalidate;
        let stale_while_revalidate = counted(revalidate, name, value, b"stale-while-revalidate");
        let stale_if_error = counted(self.stale_if_error, name, value, b"stale-if-error");
        *self = ResponseControl {
            no_store,
            no_cache,
            private,
            public,
            must_revalidate,
            proxy_revalidate,
            must_understand,
            max_age,
            s_maxage,
            stale_while_revalidate,
            stale_if_error,
        };
    }
}

impl ResponseControl {
    ghost use Rattle.std.specs.Prelude.{◌≡◌, []};
    ghost use Rattle.pcache_http.specs.Control.{response_control, SaysOfResponse};

    // What no directive says.
    fn silent() -> ResponseControl
        ensures { result ≡ response_control [] }
    {
        ResponseControl {
            no_store: false,
            no_cache: Reach::Nothing,
            private: Reach::Nothing,
            public: false,
            must_revalidate: false,
            proxy_revalidate: false,
            must_understand: false,
            max_age: Number::Absent,
            s_maxage: Number::Absent,
            stale_while_revalidate: Number::Absent,
            stale_if_error: Number::Absent,
        }
    }

    /// What the Cache-Control of these fields of a response says.
    pub fn of(headers: &HeaderMap) -> ResponseControl
        ensures { SaysOfResponse headers.now result }
    {
        let mut control = ResponseControl::silent();
        hear_lines(&mut control, headers.get_all(&CACHE_CONTROL));
        control
    }
}

impl Listens for RequestControl {
    ghost Heard = { λ start said now. now ≡ request_control said };

    fn hear(&mut self, name: &[u8], value: Option<&[u8]>) {
        let no_cache = mentioned(self.no_cache, name, b"no-cache");
        let no_store = mentioned(self.no_store, name, b"no-store");
        let only_if_cached = mentioned(self.only_if_cached, name, b"only-if-cached");
        let max_age = counted(self.max_age, name, value, b"max-age");
        let max_stale = counted(self.max_stale, name, value, b"max-stale");
        let min_fresh = counted(self.min_fresh, name, value, b"min-fresh");
        let stale_if_error = counted(self.stale_if_error, name, value, b"stale-if-error");
        *self = RequestControl {
            no_cache,
            no_store,
            only_if_cached,
            max_age,
            max_stale,
            min_fresh,
            stale_if_error,
        };
    }
}

// What Pragma says, as a request's directives.
#[derive(Drop)]
struct Pragma {
    no_cache: bool,
}

impl Listens for Pragma {
    ghost Heard = { λ start said now. now.no_cache ≡ mentions (codes "no-cache") said };

    fn hear(&mut self, name: &[u8], value: Option<&[u8]>) {
        let _unused = value;
        self.no_cache = mentioned(self.no_cache, name, b"no-cache");
    }
}

impl RequestControl {
    ghost use Rattle.std.specs.Prelude.{◌≡◌, [], Bool, codes};
    ghost use Rattle.http_header.specs.HeaderMap.{ContainsKey};
    ghost use Rattle.pcache_http.specs.Control.{request_control, pragma_control, lines_at, SaysOfRequest};
    ghost use Rattle.pcache_http.specs.Said.{IsMeaning};

    // What no directive but perhaps `no-cache` says.
    fn silent(no_cache: bool) -> RequestControl
        ensures { result ≡ record (request_control []) { no_cache = no_cache } }
    {
        RequestControl {
            no_cache,
            no_store: false,
            only_if_cached: false,
            max_age: Number::Absent,
            max_stale: Number::Absent,
            min_fresh: Number::Absent,
            stale_if_error: Number::Absent,
        }
    }

    // What the Cache-Control of a request says.
    fn of_cache_control(headers: &HeaderMap) -> RequestControl
        ensures { IsMeaning request_control (lines_at headers.now (codes "cache-control")) result }
    {
        let mut control = RequestControl::silent(false);
        hear_lines(&mut control, headers.get_all(&CACHE_CONTROL));
        control
    }

    // What the Pragma of a request says.
    fn of_pragma(headers: &HeaderMap) -> RequestControl
        ensures { IsMeaning pragma_control (lines_at headers.now (codes "pragma")) result }
    {
        let mut pragma = Pragma { no_cache: false };
        hear_lines(&mut pragma, headers.get_all(&PRAGMA));
        RequestControl::silent(pragma.no_cache)
    }

    /// What these fields of a request say: its Cache-Control, and only where there is none the
    /// `no-cache` of its Pragma.
    pub fn of(headers: &HeaderMap) -> RequestControl
        ensures { SaysOfRequest headers.now result }
    {
        if headers.contains_key(&CACHE_CONTROL) {
            RequestControl::of_cache_control(headers)
        } else {
            RequestControl::of_pragma(headers)
        }
    }
}
