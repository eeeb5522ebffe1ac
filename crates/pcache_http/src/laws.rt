//! What RFC 9111 forbids, as laws of the decisions. Each function does nothing: its contract is the law.

ghost use Rattle.std.specs.Prelude.{◌≡◌, ℕ, true, false};
ghost use Rattle.pcache_meta.specs.declared.header.RequestHeader.{RequestHeader};
ghost use Rattle.pcache_meta.specs.declared.header.ResponseHeader.{ResponseHeader};
ghost use Rattle.pcache_http.specs.declared.rules.CacheKind.{CacheKind};
ghost use Rattle.pcache_http.specs.declared.rules.Rules.{Rules};
ghost use Rattle.pcache_http.specs.declared.control.ResponseControl.{ResponseControl};
ghost use Rattle.pcache_http.specs.declared.control.RequestControl.{RequestControl};
ghost use Rattle.pcache_http.specs.declared.lifetime.Lifetime.{Lifetime};
ghost use Rattle.pcache_http.specs.declared.serving.Serving.{Serving};
ghost use Rattle.pcache_http.specs.declared.storing.NotStoredFor.{NotStoredFor};
ghost use Rattle.pcache_http.specs.Storing.{MayBeStored, Fails};
ghost use Rattle.pcache_http.specs.Serving.{Serves, IsNotServed, is_fresh, wants_validation, prohibits_stale};

/// A response for which a reason not to store it holds may not be stored. So `may_store` answers
/// `Stored` exactly if all conditions hold (RFC 9111 section 3).
pub fn a_reason_forbids_storing()
    ensures { (kind : CacheKind) (request : RequestHeader) (asked : RequestControl)
        (response : ResponseHeader) (said : ResponseControl) (reason : NotStoredFor)
        → Fails kind request asked response said reason
        → ¬ (MayBeStored kind request asked response said) }
{}

/// A response whose `no-cache` holds for the whole of it is never served without validation (RFC
/// 9111 section 5.2.2.4): neither while it is fresh nor by `stale-while-revalidate`.
pub fn no_cache_is_validated()
    ensures { (rules : Rules) (said : ResponseControl) (asked : RequestControl)
        (lifetime : Lifetime) (age : ℕ) (decided : Serving)
        → wants_validation said ≡ true
        → Serves rules said asked lifetime age decided → IsNotServed decided }
{}

/// A stale response is not served if a directive prohibits it (RFC 9111 section 4.2.4), whatever the
/// client accepts.
pub fn what_is_prohibited_is_not_served_stale()
    ensures { (rules : Rules) (said : ResponseControl) (asked : RequestControl)
        (lifetime : Lifetime) (age : ℕ) (decided : Serving)
        → prohibits_stale rules.kind said ≡ true → is_fresh lifetime age ≡ false
        → Serves rules said asked lifetime age decided → IsNotServed decided }
{}
