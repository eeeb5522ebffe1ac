//! Writes: their begin, their pieces and their end.
use crate::mark::Mark;
use crate::request::SharedRequest;
use crate::shared::SharedCache;
use bytes::Bytes;
use pcache_base::error::{Error, ErrorType, Result};
use pcache_evict::eviction::EvictionManager;
use pcache_request::cache::FinishReport;
use std::sync::Wait;

impl<M: EvictionManager, K: Mark, const N: usize> SharedCache<M, K, N> {
    ghost use Rattle.std.specs.Prelude.{◌≡◌, ◌⊎◌, IfErr, OnErr, OnOk};
    ghost use Rattle.pcache_base.specs.declared.error.ErrorType.TheVariants.{OutOfMemory};
    ghost use Rattle.pcache_request.specs.Finishing.{after_finish};
    ghost use Rattle.pcache_request.specs.Phases.{IsFilling};
    ghost use Rattle.pcache_request.specs.Requests.{MayWrite};
    ghost use Rattle.pcache_request.specs.Sizes.{exceeds_head};
    ghost use Rattle.pcache_cache.specs.Filling.{BeginsWrite, Writes};
    ghost use Rattle.pcache_shared_cache.specs.Calls.{EndsWriteOf};
    ghost use Rattle.pcache_cache.specs.Weighing.{written_head};
    ghost use Rattle.pcache_shared_cache.specs.Seen.{Goes, Sees};

    /// `Cache::set_miss_handler`: begins the write, which is removed at once if the key, or its URL, was purged since the request's fetch
    /// began. Requires a phase in which a write may be made, a meta, and no write; ask
    /// `may_write` of the request.
    pub fn set_miss_handler<R: Wait>(&self, rt: &R, request: &mut SharedRequest<K, N>) -> Result<()>
        requires { MayWrite request.old.cache }
        ensures goes { Goes self.now K.names request.old.place request.old.seen request.new.seen
            (BeginsWrite request.old.fetch result request.old.cache request.new.cache) }
        ensures phase { request.new.cache.phase ≡ request.old.cache.phase }
        ensures place { request.new.place ≡ request.old.place }
        ensures fetch { request.new.fetch ≡ request.old.fetch }
    {
        let mut guard = self.part(request.place()).lock(rt);
        let part = &mut *guard;
        let result = part.cache.set_miss_handler(&mut request.request);
        part.log.adds(&part.cache, &mut request.sight);
        result
    }

    /// `Cache::write_body`: adds bytes to the request's write, and with `eof` announces that they are the last. Without a write,
    /// or after the last bytes, it returns `false` and changes nothing. Fails when memory runs out, and then changes nothing.
    /// Requires the phase Miss or Expired; ask `phase().is_filling()` of `cache()`.
    pub fn write_body<R: Wait>(
        &self,
        rt: &R,
        request: &mut SharedRequest<K, N>,
        bytes: Bytes,
        eof: bool,
    ) -> Result<bool>
        requires { IsFilling request.old.cache.phase }
        ensures goes { Goes self.now K.names request.old.place request.old.seen request.new.seen
            (Writes result bytes eof request.old.cache request.new.cache) }
        ensures rest { request.new ≡ record request.old { seen = request.new.seen } }
        ensures kind { IfErr result (λ e. e ≡ OutOfMemory) }
    {
        let mut guard = self.part(request.place()).lock(rt);
        let part = &mut *guard;
        let result = part.cache.write_body(&mut request.request, bytes, eof);
        part.log.adds(&part.cache, &mut request.sight);
        result
    }

    /// `Cache::head_length`: the length of the text of the head that the request's write stores, in bytes; `None` without a write.
    pub fn head_length<R: Wait>(&self, rt: &R, request: &mut SharedRequest<K, N>) -> Option<usize>
        ensures sees { Sees self.now K.names request.old.place request.old.seen request.new.seen
            (λ p. result ≡ written_head p.store request.old.cache.write) }
        ensures rest { request.new ≡ record request.old { seen = request.new.seen } }
    {
        let lock = self.part(request.place());
        let mut guard = lock.lock(rt);
        let part = &mut *guard;
        part.log.shows(&mut request.sight);
        part.cache.head_length(&request.request)
    }

    /// `Cache::exceeded_max_head_size`: whether the head that the request's write stores is longer than the request's limit
    /// (`set_max_head_size_bytes`). Without a limit, and without a write, it is not.
    pub fn exceeded_max_head_size<R: Wait>(&self, rt: &R, request: &mut SharedRequest<K, N>) -> bool
        ensures sees { Sees self.now K.names request.old.place request.old.seen request.new.seen
            (λ p. result ≡ exceeds_head request.old.cache.head_limit
            (written_head p.store request.old.cache.write)) }
        ensures rest { request.new ≡ record request.old { seen = request.new.seen } }
    {
        let lock = self.part(request.place());
        let mut guard = lock.lock(rt);
        let part = &mut *guard;
        part.log.shows(&mut request.sight);
        part.cache.exceeded_max_head_size(&request.request)
    }

    /// `Cache::finish_miss_handler`: ends the write and stores the body, whose entry is admitted; what is evicted for it is
    /// purged. The entry of the body that stood under the key until then is taken out first. Fails with `InternalError`, and changes nothing, if the write is not of the request's part; the write of a request
    /// that began it here is.
    pub fn finish_miss_handler<R: Wait>(
        &self,
        rt: &R,
        request: &mut SharedRequest<K, N>,
    ) -> Result<Option<FinishReport>>
        requires { IsFilling request.old.cache.phase }
        ensures goes { Goes self.now K.names request.old.place request.old.seen request.new.seen
            (EndsWriteOf result request.old.cache request.new.cache) }
        ensures ok { OnOk result (request.new.cache ≡ after_finish request.old.cache) }
        ensures err { OnErr result ((request.new.cache ≡ request.old.cache)
            ⊎ (request.new.cache ≡ after_finish request.old.cache)) }
        ensures place { request.new.place ≡ request.old.place }
        ensures fetch { request.new.fetch ≡ request.old.fetch }
    {
        let mut guard = self.part(request.place()).lock(rt);
        let part = &mut *guard;
        // A test and no precondition: of what is behind the lock a caller can know nothing but its
        // type.
        if !part.cache.may_end(&request.request) {
            part.log.adds(&part.cache, &mut request.sight);
            return Err(Error::new(ErrorType::InternalError));
        }
        let report = part.cache.finish_miss_handler(&mut request.request);
        part.log.adds(&part.cache, &mut request.sight);
        report
    }
}
