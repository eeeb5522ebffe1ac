//! Reading values from the front of a slice.
//!
//! No reader takes memory, so each failure says that the bytes spell no such value: it is an
//! `InternalError`. A reader that fails has read nothing.
ghost use Rattle.std.specs.Prelude.{◌≡◌, ◌<◌, ◌==◌, length, drop, IfOk, OnErr, if◌then◌else◌};
ghost use Rattle.std.specs.Int.{w8, w16, w32, w64};
ghost use Rattle.pcache_meta.specs.Reading.{Gives, array_at, hash_at, bytes_at, items_at, mark_at, number_at, number_below_at, optional_at, small_numbers_at, starts_with_nil, text_at, text_head_at, utf8_of, wide_at};
ghost use Rattle.pcache_base.specs.declared.error.ErrorType.TheVariants.{InternalError};

use pcache_base::error::{Error, ErrorType, Result};
use pcache_base::key::HashBinary;
use std::marker::Model;
use std::str;

/// The bytes that are still to be read, which is what a contract sees.
#[derive(Drop)]
pub struct Reader<'a> {
    rest: &'a [u8],
}

impl<'a> Model for Reader<'a> {
    ghost use Rattle.std.specs.Prelude.{ℕ, List};

    ghost Value = { List ℕ };

    ghost view = { λ r. r.rest.now };
}

impl<'a> Reader<'a> {
    /// A reader of all of the bytes.
    pub fn new(bytes: &'a [u8]) -> Reader<'a>
        ensures { result ≡ bytes.now }
    {
        Reader { rest: bytes }
    }

    /// Whether all bytes were read.
    pub fn is_empty(&self) -> bool
        ensures { result ≡ (length self.now == 0) }
    {
        self.rest.is_empty()
    }

    /// How many bytes are still to be read. A reader of a list reserves room by this number, and
    /// never by the number that the bytes state.
    pub fn remaining(&self) -> usize
        ensures { result ≡ length self.now }
    {
        self.rest.len()
    }

    // The next `count` bytes.
    #[tactic(auto, unfolding(crate::specs::Reading::bytes_at))]
    fn bytes(&mut self, count: usize) -> Result<&'a [u8]>
        ensures { Gives (λ x. (x.now, self.new)) result (bytes_at count self.old) }
    {
        let Some((front, rest)) = self.rest.split_at_checked(count) else {
            return Err(unreadable());
        };
        self.rest = rest;
        Ok(front)
    }

    #[tactic(auto, unfolding(crate::specs::Reading::wide_at, crate::specs::Reading::bytes_at))]
    fn wide8(&mut self) -> Result<u64>
        ensures { Gives (λ n. (n, self.new)) result (wide_at w8 self.old) }
    {
        let b = self.bytes(1)?;
        Ok(u64::from(u8::from_be_bytes([b[0]])))
    }

    #[tactic(auto, unfolding(crate::specs::Reading::wide_at, crate::specs::Reading::bytes_at))]
    fn wide16(&mut self) -> Result<u64>
        ensures { Gives (λ n. (n, self.new)) result (wide_at w16 self.old) }
    {
        let b = self.bytes(2)?;
        Ok(u64::from(u16::from_be_bytes([b[0], b[1]])))
    }

    #[tactic(auto, unfolding(crate::specs::Reading::wide_at, crate::specs::Reading::bytes_at))]
    fn wide32(&mut self) -> Result<u64>
        ensures { Gives (λ n. (n, self.new)) result (wide_at w32 self.old) }
    {
        let b = self.bytes(4)?;
        Ok(u64::from(u32::from_be_bytes([b[0], b[1], b[2], b[3]])))
    }

    #[tactic(auto, unfolding(crate::specs::Reading::wide_at, crate::specs::Reading::bytes_at))]
    fn wide64(&mut self) -> Result<u64>
        ensures { Gives (λ n. (n, self.new)) result (wide_at w64 self.old) }
    {
        let b = self.bytes(8)?;
        let number = u64::from_be_bytes([b[0], b[1], b[2], b[3], b[4], b[5], b[6], b[7]]);
        Ok(number)
    }

    /// A number, in any width.
    pub fn number(&mut self) -> Result<u64>
        ensures value { Gives (λ n. (n, self.new)) result (number_at self.old) }
        ensures unread { OnErr result (self.new ≡ self.old) }
    {
        let before = self.rest;
        match self.take_number() {
            Ok(read) => Ok(read),
            Err(refused) => {
                self.rest = before;
                Err(refused)
            }
        }
    }

    #[tactic(auto, unfolding(crate::specs::Reading::number_at))]
    fn take_number(&mut self) -> Result<u64>
        ensures { Gives (λ n. (n, self.new)) result (number_at self.old) }
    {
        let [first, rest @ ..] = self.rest else {
            return Err(unreadable());
        };
        let first = *first;
        self.rest = rest;
        match first {
            0..=0x7F => Ok(u64::from(first)),
            0xCC => self.wide8(),
            0xCD => self.wide16(),
            0xCE => self.wide32(),
            0xCF => self.wide64(),
            _ => Err(unreadable()),
        }
    }

    /// A number below a limit.
    pub fn number_below(&mut self, limit: u64) -> Result<u64>
        ensures value { Gives (λ n. (n, self.new)) result (number_below_at limit self.old) }
        ensures below { IfOk result (λ n. n < limit) }
        ensures unread { OnErr result (self.new ≡ self.old) }
    {
        let before = self.rest;
        match self.take_number_below(limit) {
            Ok(read) => Ok(read),
            Err(refused) => {
                self.rest = before;
                Err(refused)
            }
        }
    }

    #[tactic(auto, unfolding(crate::specs::Reading::number_below_at))]
    fn take_number_below(&mut self, limit: u64) -> Result<u64>
        ensures value { Gives (λ n. (n, self.new)) result (number_below_at limit self.old) }
        ensures below { IfOk result (λ n. n < limit) }
    {
        let n = self.number()?;
        if n >= limit {
            return Err(unreadable());
        }
        Ok(n)
    }

    /// How many items an array has, in any width. The items follow.
    pub fn array(&mut self) -> Result<u64>
        ensures value { Gives (λ n. (n, self.new)) result (array_at self.old) }
        ensures unread { OnErr result (self.new ≡ self.old) }
    {
        let before = self.rest;
        match self.take_array() {
            Ok(read) => Ok(read),
            Err(refused) => {
                self.rest = before;
                Err(refused)
            }
        }
    }

    #[tactic(auto, unfolding(crate::specs::Reading::array_at))]
    fn take_array(&mut self) -> Result<u64>
        ensures { Gives (λ n. (n, self.new)) result (array_at self.old) }
    {
        let [first, rest @ ..] = self.rest else {
            return Err(unreadable());
        };
        let first = *first;
        self.rest = rest;
        match first {
            0xDC => self.wide16(),
            0xDD => self.wide32(),
            0x90..=0x9F => Ok(u64::from(first - 0x90)),
            _ => Err(unreadable()),
        }
    }

    /// The head of an array of exactly `count` items.
    pub fn items(&mut self, count: u64) -> Result<()>
        ensures value { Gives (λ _. self.new) result (items_at count self.old) }
        ensures unread { OnErr result (self.new ≡ self.old) }
    {
        let before = self.rest;
        match self.take_items(count) {
            Ok(read) => Ok(read),
            Err(refused) => {
                self.rest = before;
                Err(refused)
            }
        }
    }

    #[tactic(auto, unfolding(crate::specs::Reading::items_at))]
    fn take_items(&mut self, count: u64) -> Result<()>
        ensures { Gives (λ _. self.new) result (items_at count self.old) }
    {
        if self.array()? != count {
            return Err(unreadable());
        }
        Ok(())
    }

    // The length of a text, in any width.
    #[tactic(auto, unfolding(crate::specs::Reading::text_head_at))]
    fn text_head(&mut self) -> Result<u64>
        ensures { Gives (λ n. (n, self.new)) result (text_head_at self.old) }
    {
        let [first, rest @ ..] = self.rest else {
            return Err(unreadable());
        };
        let first = *first;
        self.rest = rest;
        match first {
            0xD9 => self.wide8(),
            0xDA => self.wide16(),
            0xDB => self.wide32(),
            0xA0..=0xBF => Ok(u64::from(first - 0xA0)),
            _ => Err(unreadable()),
        }
    }

    /// A text, as a slice of the bytes.
    pub fn text(&mut self) -> Result<&'a str>
        ensures value { Gives (λ t. (t.now, self.new)) result (text_at self.old) }
        ensures unread { OnErr result (self.new ≡ self.old) }
    {
        let before = self.rest;
        match self.take_text() {
            Ok(read) => Ok(read),
            Err(refused) => {
                self.rest = before;
                Err(refused)
            }
        }
    }

    #[tactic(auto, unfolding(crate::specs::Reading::text_at))]
    fn take_text(&mut self) -> Result<&'a str>
        ensures { Gives (λ t. (t.now, self.new)) result (text_at self.old) }
    {
        let len = self.text_head()? as usize;
        let bytes = self.bytes(len)?;
        utf8_of(bytes)
    }

    // Sixteen numbers, each of them a byte.
    fn small_numbers(&mut self) -> Result<HashBinary>
        ensures { Gives (λ hash. (hash, self.new)) result (small_numbers_at 16 self.old) }
    {
        let mut out = [0u8; 16];
        'each: for i in 0..16 {
            out[i] = self.number_below(256)? as u8;
        }
        Ok(out)
    }

    /// A hash: an array of sixteen bytes.
    pub fn hash(&mut self) -> Result<HashBinary>
        ensures value { Gives (λ hash. (hash, self.new)) result (hash_at self.old) }
        ensures unread { OnErr result (self.new ≡ self.old) }
    {
        let before = self.rest;
        match self.take_hash() {
            Ok(read) => Ok(read),
            Err(refused) => {
                self.rest = before;
                Err(refused)
            }
        }
    }

    #[tactic(auto, unfolding(crate::specs::Reading::hash_at))]
    fn take_hash(&mut self) -> Result<HashBinary>
        ensures { Gives (λ hash. (hash, self.new)) result (hash_at self.old) }
    {
        self.items(16)?;
        self.small_numbers()
    }

    /// A hash, or nil.
    #[tactic(auto, unfolding(crate::specs::Reading::optional_at))]
    pub fn optional_hash(&mut self) -> Result<Option<HashBinary>>
        ensures value { Gives (λ hash. (hash, self.new)) result (optional_at hash_at self.old) }
        ensures unread { OnErr result (self.new ≡ self.old) }
    {
        if self.skip_nil() {
            return Ok(None);
        }
        Ok(Some(self.hash()?))
    }

    /// Reads nil, if it comes next. Returns whether it did.
    pub fn skip_nil(&mut self) -> bool
        ensures value { result ≡ starts_with_nil self.old }
        ensures after { self.new
            ≡ (if starts_with_nil self.old then drop 1 self.old else self.old) }
    {
        match self.rest {
            [0xC0, rest @ ..] => {
                self.rest = rest;
                true
            }
            _ => false,
        }
    }

    /// Reads exactly this byte.
    #[tactic(auto, unfolding(crate::specs::Reading::mark_at))]
    pub fn mark(&mut self, mark: u8) -> Result<()>
        ensures value { Gives (λ _. self.new) result (mark_at mark self.old) }
        ensures unread { OnErr result (self.new ≡ self.old) }
    {
        match self.rest {
            [first, rest @ ..] if *first == mark => {
                self.rest = rest;
                Ok(())
            }
            _ => Err(unreadable()),
        }
    }
}

// The text that the bytes are.
#[tactic(auto, unfolding(crate::specs::Reading::utf8_of))]
fn utf8_of(bytes: &[u8]) -> Result<&str>
    ensures { Gives (λ t. t.now) result (utf8_of bytes.now) }
{
    match str::from_utf8(bytes) {
        Ok(text) => Ok(text),
        Err(_) => Err(unreadable()),
    }
}

/// The error for bytes that spell no such value.
pub(crate) fn unreadable() -> Error
    ensures { result ≡ InternalError }
{
    Error::new(ErrorType::InternalError)
}
