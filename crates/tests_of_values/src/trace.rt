//! Spans, which have no effect.
use pcache_base::moment::Moment;
use pcache_base::trace::{Span, SpanOptionsPlaceholder, Tag};

fn has_no_effect() -> bool {
    let mut span = Span::inactive();
    let child = span.child("hit", |options: SpanOptionsPlaceholder| options.start());
    span.set_tag(|| Tag::new("phase", 1u8));
    span.set_tags(|| [Tag::new("phase", 1u8)]);
    span.set_finish_time(|| Moment::from_secs(7));
    child == Span::inactive() && child.handle() == span.handle() && span == Span::inactive()
}

#[test]
fn no_effect(rt: HostRuntime) {
    assert!(rt; has_no_effect());
}
