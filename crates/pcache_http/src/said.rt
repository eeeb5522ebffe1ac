//! The directives of a field's lines, heard one after another.

ghost use Rattle.std.specs.Prelude.{◌≡◌, ◌++◌, [], ◌∷◌, List, length, bytes_eq};
ghost use Rattle.std.specs.Option.{option_copied};
ghost use Rattle.http_header.specs.Token.{lowercase};
ghost use Rattle.pcache_control.specs.declared.scan.Span.{Span};
ghost use Rattle.pcache_control.specs.Directives.{AreDirectives, LiesWithin};
ghost use Rattle.pcache_control.specs.Maps.{lines_of};
ghost use Rattle.pcache_http.specs.Said.{Directive, directive_in, directives_in, AreSaid};

use http_header::{GetAll, HeaderValue};
use pcache_control::scan::{Directives, Span};

/// What hears directives.
pub(crate) trait Listens {
    // What was heard so far: the value at the start, the directives since then, the value now.
    ghost use Rattle.std.specs.Prelude.{List, ◌++◌, ◌∷◌, []};
    ghost use Rattle.std.specs.Option.{option_copied};
    ghost use Rattle.pcache_http.specs.Said.{Directive};

    ghost Heard: { Self → List Directive → Self → Type 0 };

    /// Hears one directive: its name and its value.
    fn hear(&mut self, name: &[u8], value: Option<&[u8]>)
        ensures { (start : Self) (said : List Directive) → Heard start said self.old
            → Heard start (said ++ (name.now, option_copied value.entry) ∷ []) self.new };
}

/// Whether the name of a directive is this one, which is in lower case.
pub(crate) fn is_called(name: &[u8], known: &[u8]) -> bool
    ensures { result ≡ bytes_eq (lowercase name.now) (lowercase known.now) }
{
    name.eq_ignore_ascii_case(known)
}

// Hears the directive at a span.
fn hear_span<L: Listens>(listener: &mut L, line: &[u8], span: Span)
    requires { LiesWithin (length line.now) span }
    ensures { (start : L) (said : List Directive) → L.Heard start said listener.old
        → L.Heard start (said ++ directive_in line.now span ∷ []) listener.new }
{
    let name = &line[span.start..span.name_end];
    match span.value {
        Some((start, end)) => listener.hear(name, Some(&line[start..end])),
        None => listener.hear(name, None),
    }
}

// Hears the directives of a line, from left to right.
fn hear_line<L: Listens>(listener: &mut L, line: &[u8])
    ensures heard { (start : L) (said : List Directive) (spans : List Span)
        → AreDirectives line.now spans → L.Heard start said listener.old
        → L.Heard start (said ++ directives_in line.now spans) listener.new }
    ensures there { (spans : List Span) × AreDirectives line.now spans }
{
    'spans: for span in Directives::new(line) {
        hear_span(listener, line, span);
    }
}

/// Hears the directives of a field's lines, in the lines' order.
pub(crate) fn hear_lines<L: Listens>(listener: &mut L, lines: GetAll<'_, HeaderValue>)
    ensures heard { (start : L) (said : List Directive) → AreSaid (lines_of lines.entry) said
        → L.Heard start [] listener.old → L.Heard start said listener.new }
    ensures there { (said : List Directive) × AreSaid (lines_of lines.entry) said }
{
    'lines: for line in lines {
        hear_line(listener, line.as_bytes());
    }
}
