//! Texts, errors, reasons and polls.
//! Expected values are hand-computed.

use pcache_base::error::{Error, ErrorType, Result};
use pcache_base::poll::Poll;
use pcache_base::reason::NoCacheReason;
use pcache_base::text::Text;
use std::alloc::Global;
use std::fmt::Display;

fn ab(alloc: Global) -> Result<Text> {
    Ok(Text::new(String::from_str(alloc, "ab")?))
}

fn b(alloc: Global) -> Result<Text> {
    Ok(Text::from(String::from_str(alloc, "b")?))
}

fn is_below_b(alloc: Global, text: &Text) -> bool {
    match b(alloc) {
        Ok(b) => *text < b,
        Err(_refused) => false,
    }
}

fn is_copied(text: &Text) -> bool {
    match text.copied() {
        Ok(copy) => copy == *text,
        Err(_refused) => false,
    }
}

fn prints_as<T: Display>(alloc: Global, it: &T, wanted: &str) -> bool {
    match format!(in alloc; "{it}") {
        Ok(text) => text.as_str() == wanted,
        Err(_refused) => false,
    }
}

fn is_ab(alloc: Global, text: &Text) -> bool {
    text.as_str() == "ab"
        && is_copied(text)
        && is_below_b(alloc, text)
        && prints_as(alloc, text, "ab")
}

#[test]
fn owned_texts(rt: HostRuntime) {
    let is_good = match ab(rt.alloc()) {
        Ok(text) => is_ab(rt.alloc(), &text),
        Err(_refused) => false,
    };
    assert!(rt; is_good);
}

fn is_named(alloc: Global, e: &Error) -> bool {
    e.etype() == ErrorType::WriteRemoved && prints_as(alloc, e, "WriteRemoved")
}

fn kinds_have_names() -> bool {
    ErrorType::Io.as_str() == "Io"
        && ErrorType::Superseded.as_str() == "Superseded"
        && NoCacheReason::OriginNotCache.as_str() == "OriginNotCache"
        && NoCacheReason::Custom("mine").as_str() == "mine"
}

#[test]
fn errors_and_reasons(rt: HostRuntime) {
    assert!(rt; is_named(rt.alloc(), &Error::new(ErrorType::WriteRemoved)));
    assert!(rt; kinds_have_names());
}

#[test]
fn polls(rt: HostRuntime) {
    assert!(rt; Poll::Ready(1) != Poll::Pending);
}
