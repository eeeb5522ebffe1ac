//! What a request over the store in memory does alone, without the parts of its cache: it reads a complete body, whose bytes
//! its reader has, and ends while it holds nothing of them. Each call does what its namesake does with any parts.
use super::HttpCache;
use bytes::Bytes;
use pcache_base::error::Result;
use pcache_base::poll::Poll;
use pcache_store::memory::MemCache;

impl HttpCache<MemCache> {
    ghost use Rattle.std.specs.Prelude.{◌≡◌, ◌↔◌, true, IsSome, IsTrue};
    ghost use Rattle.pcache_lock.specs.Locks.{Locks};
    ghost use Rattle.pcache_store.specs.Store.{Store};
    ghost use Rattle.pcache_request.specs.Alone.{MayEndAlone, reads_alone};
    ghost use Rattle.pcache_request.specs.Looking.{Reads};
    ghost use Rattle.pcache_request.specs.Phases.{MayFinishHit};
    ghost use Rattle.pcache_request.specs.Requests.{dropped_by, left_by, length_by, let_go_by, whole_by, without_reader};

    /// Whether its reader, if it has one, needs no store: it reads a complete body.
    pub fn reads_alone(&self) -> bool
        ensures { result ≡ reads_alone self.now.reader }
    {
        // For the store in memory alone: a method of `HandleHit` would be one more thing for each
        // store to say.
        match &self.reader {
            Some(reader) => reader.needs_no_store(),
            None => true,
        }
    }

    /// Whether `end_alone` may be called: it holds no lock and no write, and its reader needs no store.
    pub fn may_end_alone(&self) -> bool
        ensures { IsTrue result ↔ MayEndAlone self.now }
    {
        self.held.is_none() && self.writer.is_none() && self.reads_alone()
    }

    /// `read_body` of a complete body. Requires its reader; ask `has_body_reader()` and `reads_alone()`.
    pub fn read_body_alone(&mut self) -> Result<Poll<Option<Bytes>>>
        requires reader { IsSome self.old.reader }
        requires alone { reads_alone self.old.reader ≡ true }
        ensures { (s : Store) → Reads result self.old self.new s }
    {
        let Some(reader) = &mut self.reader else {
            unreachable!()
        };
        Ok(reader.read_body_alone()?)
    }

    /// `is_body_whole` of a complete body, or without a reader. Ask `reads_alone()`.
    pub fn is_body_whole_alone(&self) -> bool
        requires { reads_alone self.now.reader ≡ true }
        ensures { (s : Store) → result ≡ whole_by self.now.reader s }
    {
        match &self.reader {
            Some(reader) => reader.is_whole_alone(),
            None => false,
        }
    }

    /// `body_length` of a complete body, or without a reader. Ask `reads_alone()`.
    pub fn body_length_alone(&self) -> Option<usize>
        requires { reads_alone self.now.reader ≡ true }
        ensures { (s : Store) → result ≡ length_by self.now.reader s }
    {
        match &self.reader {
            Some(reader) => Some(reader.body_length_alone()),
            None => None,
        }
    }

    /// `finish_hit_handler` without a reader, or with one of a complete body: it leaves any store as it is.
    /// Requires a phase after a look-up (not Disabled, Uninit, CacheKey or Bypass); ask
    /// `phase().may_finish_hit()` and `reads_alone()`.
    pub fn finish_hit_handler_alone(&mut self)
        requires phase { MayFinishHit self.old.phase }
        requires alone { reads_alone self.old.reader ≡ true }
        ensures request { self.new ≡ without_reader self.old }
        ensures store { (s : Store) → left_by self.old.reader s ≡ s }
    {
        let Some(reader) = self.reader.take() else {
            return;
        };
        self.traces.finish_hit_span();
        reader.let_go_alone();
    }

    /// `end` of a request that holds nothing of its parts: it leaves any store and any lock table as they are.
    /// Ask `may_end_alone()`.
    pub fn end_alone(self)
        requires { MayEndAlone self }
        ensures store { (s : Store) → left_by self.reader (dropped_by self.write s) ≡ s }
        ensures table { (t : Locks) → let_go_by self.held t ≡ t }
    {
        let HttpCache {
            alloc: _,
            phase: _,
            uses: _,
            key: _,
            meta: _,
            held,
            reader,
            writer,
            lock_ctx: _,
            waits_since: _,
            valid_after: _,
            stale_variance: _,
            size: _,
            head_limit: _,
            predicted: _,
            has_policy: _,
            digest: _,
            traces: _,
        } = self;
        match (held, writer) {
            (None, None) => {}
            _ => unreachable!(),
        }
        if let Some(reader) = reader {
            reader.let_go_alone();
        }
    }
}
