//! Rows of what may be stored (RFC 9111 section 3): `METHOD / the request's fields / STATUS / the response's fields`.
use crate::desk::{Desk, Told, part, play};
use crate::heads::fields;
use http::{Method, StatusCode};
use http_header::HeaderMap;
use pcache_http::control::{RequestControl, ResponseControl};
use pcache_http::rules::CacheKind;
use pcache_http::storing::may_store;
use pcache_meta::header::{HttpVersion, RequestHeader, ResponseHeader};
use std::alloc::Global;
use std::test::Fail;

#[derive(Drop)]
struct Storers {
    alloc: Global,
    kind: CacheKind,
}

impl Desk for Storers {
    fn tell(&mut self, call: &'static str, told: &mut Told) {
        let Some(asked) = fields(self.alloc, part(call, 1)) else {
            return;
        };
        let Some(said) = fields(self.alloc, part(call, 3)) else {
            return;
        };
        self.decide(part(call, 0), asked, part(call, 2), said, told);
    }
}

impl Storers {
    fn decide(
        &self,
        method: &'static str,
        asked: HeaderMap,
        status: &'static str,
        said: HeaderMap,
        told: &mut Told,
    ) {
        let Some(request) = request(self.alloc, method, asked) else {
            return;
        };
        let Ok(status) = StatusCode::from_bytes(status.as_bytes()) else {
            return;
        };
        let response = ResponseHeader {
            version: HttpVersion::Http11,
            status,
            headers: said,
        };
        let asked = RequestControl::of(&request.headers);
        let said = ResponseControl::of(&response.headers);
        told.named(&may_store(self.kind, &request, &asked, &response, &said));
    }
}

pub(crate) fn request(
    alloc: Global,
    method: &'static str,
    headers: HeaderMap,
) -> Option<RequestHeader> {
    let Ok(method) = Method::from_bytes(alloc, method.as_bytes()) else {
        return None;
    };
    Some(RequestHeader {
        method,
        target: Vec::new(alloc),
        headers,
    })
}

#[test]
fn stored_in_a_shared_cache(rt: HostRuntime) -> Result<(), Fail> {
    let mut desk = Storers {
        alloc: rt.alloc(),
        kind: CacheKind::Shared,
    };
    play(&rt, rt.alloc(), &mut desk, SHARED);
    Ok(())
}

#[test]
fn stored_in_a_private_cache(rt: HostRuntime) -> Result<(), Fail> {
    let mut desk = Storers {
        alloc: rt.alloc(),
        kind: CacheKind::Private,
    };
    play(&rt, rt.alloc(), &mut desk, PRIVATE);
    Ok(())
}

const SHARED: &str = "\
    # 3: the method
    GET / / 200 / Cache-Control: max-age=60 -> Stored
    HEAD / / 200 / Cache-Control: max-age=60 -> NotStored(MethodNotUnderstood)
    POST / / 200 / Cache-Control: max-age=60 -> NotStored(MethodNotUnderstood)
    BREW / / 200 / Cache-Control: public, max-age=60 -> NotStored(MethodNotUnderstood)
    # 3: a final status
    GET / / 103 / Cache-Control: max-age=60 -> NotStored(StatusNotFinal)
    GET / / 100 / -> NotStored(StatusNotFinal)
    # 3: 206 and 304 want to be understood; 3.3: parts are not combined
    GET / / 206 / Cache-Control: max-age=60 -> NotStored(StatusNotUnderstood)
    GET / / 304 / Cache-Control: max-age=60 -> NotStored(StatusNotUnderstood)
    # 3: a status that nobody knows is stored by what the response says
    GET / / 599 / Cache-Control: max-age=60 -> Stored
    GET / / 299 / Expires: Thu, 01 Jan 1970 00:20:00 GMT -> Stored
    GET / / 599 / -> NotStored(NothingAllowsIt)
    # 5.2.2.3: must-understand
    GET / / 200 / Cache-Control: max-age=60, must-understand -> Stored
    GET / / 599 / Cache-Control: max-age=60, must-understand -> NotStored(StatusNotUnderstood)
    GET / / 200 / Cache-Control: no-store, max-age=60, must-understand -> Stored
    GET / / 599 / Cache-Control: no-store, must-understand, max-age=60 -> NotStored(StatusNotUnderstood)
    # 5.2.1.5: no-store in the request
    GET / Cache-Control: no-store / 200 / Cache-Control: max-age=60 -> NotStored(NoStoreAsked)
    GET / Cache-Control: max-age=0, No-Store / 200 / Cache-Control: public -> NotStored(NoStoreAsked)
    GET / Pragma: no-store / 200 / Cache-Control: max-age=60 -> Stored
    # 5.2.2.5: no-store in the response, in either case of letters and in a second line
    GET / / 200 / Cache-Control: no-store -> NotStored(NoStoreSaid)
    GET / / 200 / Cache-Control: NO-STORE, max-age=60 -> NotStored(NoStoreSaid)
    GET / / 200 / Cache-Control: max-age=60 | Cache-Control: no-store -> NotStored(NoStoreSaid)
    GET / / 200 / Cache-Control: public, max-age=60, no-store=\"x\" -> NotStored(NoStoreSaid)
    GET / / 200 / Cache-Control: a=\"no-store\", max-age=60 -> Stored
    # 5.2.2.7: private
    GET / / 200 / Cache-Control: private, max-age=60 -> NotStored(PrivateSaid)
    GET / / 200 / Cache-Control: private=\"set-cookie\", max-age=60 -> Stored
    GET / / 200 / Cache-Control: private=\"set-cookie\", private, max-age=60 -> NotStored(PrivateSaid)
    # 3.5: Authorization
    GET / Authorization: Basic x / 200 / Cache-Control: max-age=60 -> NotStored(Authorized)
    GET / Authorization: Basic x / 200 / Cache-Control: max-age=60, must-revalidate -> Stored
    GET / Authorization: Basic x / 200 / Cache-Control: public -> Stored
    GET / Authorization: Basic x / 200 / Cache-Control: s-maxage=60 -> Stored
    GET / Authorization: Basic x / 200 / Cache-Control: max-age=60, proxy-revalidate -> NotStored(Authorized)
    # 3: what allows it
    GET / / 302 / -> NotStored(NothingAllowsIt)
    GET / / 302 / Cache-Control: public -> Stored
    GET / / 302 / Cache-Control: max-age=60 -> Stored
    GET / / 302 / Cache-Control: s-maxage=60 -> Stored
    GET / / 302 / Expires: 0 -> Stored
    GET / / 302 / Cache-Control: must-revalidate -> NotStored(NothingAllowsIt)
    # RFC 9110, 15.1: heuristically cacheable
    GET / / 200 / -> Stored
    GET / / 203 / -> Stored
    GET / / 204 / -> Stored
    GET / / 300 / -> Stored
    GET / / 301 / -> Stored
    GET / / 308 / -> Stored
    GET / / 404 / -> Stored
    GET / / 405 / -> Stored
    GET / / 410 / -> Stored
    GET / / 414 / -> Stored
    GET / / 501 / -> Stored
    GET / / 201 / -> NotStored(NothingAllowsIt)
    GET / / 303 / -> NotStored(NothingAllowsIt)
    GET / / 307 / -> NotStored(NothingAllowsIt)
    GET / / 403 / -> NotStored(NothingAllowsIt)
    GET / / 500 / -> NotStored(NothingAllowsIt)
    GET / / 503 / -> NotStored(NothingAllowsIt)
";

const PRIVATE: &str = "\
    # 3: what holds for shared caches alone
    GET / / 200 / Cache-Control: private -> Stored
    GET / / 302 / Cache-Control: private -> Stored
    GET / / 302 / Cache-Control: private=\"set-cookie\" -> Stored
    GET / / 302 / Cache-Control: s-maxage=60 -> NotStored(NothingAllowsIt)
    GET / Authorization: Basic x / 200 / Cache-Control: max-age=60 -> Stored
    # 3: what holds for all caches
    GET / / 200 / Cache-Control: private, no-store -> NotStored(NoStoreSaid)
    GET / Cache-Control: no-store / 200 / Cache-Control: private -> NotStored(NoStoreAsked)
";
