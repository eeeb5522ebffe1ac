//! The limits on a body's size and on a head's.
use super::HttpCache;
use pcache_response::max_file_size::MaxFileSizeTracker;
use pcache_store::storage::Storage;

impl<S: Storage> HttpCache<S> {
    ghost use Rattle.std.specs.Prelude.{◌≡◌, not, option_map};
    ghost use Rattle.pcache_request.specs.Phases.{IsOn, WasEnabled};
    ghost use Rattle.pcache_request.specs.Sizes.{with_limit, limit_of, with_bytes, is_within, with_head_limit, is_head_within};

    /// Limits the number of the body's bytes, and sets their count to zero.
    /// Requires that caching is on; ask `phase().is_on()`.
    pub fn set_max_file_size_bytes(&mut self, max_file_size_bytes: usize)
        requires { IsOn self.old.phase }
        ensures { self.new ≡ with_limit max_file_size_bytes self.old }
    {
        self.size = Some(MaxFileSizeTracker::new(max_file_size_bytes));
    }

    /// The limit, if there is one.
    /// Requires that caching was enabled once; ask `phase().was_enabled()`.
    pub fn max_file_size_bytes(&self) -> Option<usize>
        requires { WasEnabled self.now.phase }
        ensures { result ≡ option_map limit_of self.now.size }
    {
        let size = self.size.as_ref()?;
        Some(size.max_file_size_bytes())
    }

    /// Counts so many bytes of the body, up to the largest `usize`, and returns whether the count is
    /// within the limit. Without a limit it counts nothing, and returns true. It may also be called
    /// after caching was turned off.
    /// Requires that caching was enabled once; ask `phase().was_enabled()`.
    pub fn track_body_bytes_for_max_file_size(&mut self, bytes_len: usize) -> bool
        requires { WasEnabled self.old.phase }
        ensures request { self.new ≡ with_bytes bytes_len self.old }
        ensures within { result ≡ is_within self.new.size }
    {
        match &mut self.size {
            Some(size) => size.add_body_bytes(bytes_len),
            None => true,
        }
    }

    /// Whether the counted bytes are more than the limit.
    /// Requires that caching was enabled once; ask `phase().was_enabled()`.
    pub fn exceeded_max_file_size(&self) -> bool
        requires { WasEnabled self.now.phase }
        ensures { result ≡ not (is_within self.now.size) }
    {
        match &self.size {
            Some(size) => !size.allow_caching(),
            None => false,
        }
    }

    /// Limits the length of the head that is stored, the text with its lines' ends, in bytes. Own; for heads what
    /// `set_max_file_size_bytes` is for bodies.
    /// Requires that caching is on; ask `phase().is_on()`.
    pub fn set_max_head_size_bytes(&mut self, max_head_size_bytes: usize)
        requires { IsOn self.old.phase }
        ensures { self.new ≡ with_head_limit max_head_size_bytes self.old }
    {
        self.head_limit = Some(max_head_size_bytes);
    }

    /// The limit on the length of the head, in bytes, if there is one.
    pub fn max_head_size_bytes(&self) -> Option<usize>
        ensures { result ≡ self.now.head_limit }
    {
        self.head_limit
    }

    /// Whether a head of so many bytes is within the limit. Without a limit each is.
    pub fn is_head_within(&self, head_length: usize) -> bool
        ensures { result ≡ is_head_within self.now.head_limit head_length }
    {
        // It ends nothing by itself: who does not store a head may still serve it.
        let is_longer = matches!(self.head_limit, Some(most) if head_length > most);
        !is_longer
    }
}
