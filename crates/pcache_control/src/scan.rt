//! The positions of the directives of a Cache-Control line.
//!
//! The line is read from left to right in one pass. It is more permissive than RFC 9111 section 5.2
//! in three ways, as other caches are: a semicolon separates directives as a comma does, a name or
//! a bare value may hold any byte past ASCII, and any directive may have a value.

ghost use Rattle.std.specs.Prelude.{◌≡◌, ◌≤◌, ◌<◌, ◌+◌, ◌-◌, ℕ, List, length, drop, IfSome, IfNone, slice_index, false};
ghost use Rattle.pcache_control.specs.declared.scan.Span.{Span};
ghost use Rattle.pcache_control.specs.Bytes.{is_token_byte, is_delimiter, is_white_space};
ghost use Rattle.pcache_control.specs.Directives.{IsTokenAt, IsFirstStart, IsNextStart, IsLongestRun, IsWhiteSpaceRun, Leads, IsAdmitted, IsClosed, HasValue, IsDirective};

use std::marker::Model;

/// The position of a directive in its line, as indices of bytes.
#[derive(Clone, Copy, Debug, PartialEq, Eq)]
pub struct Span {
    /// Where the name starts.
    pub start: usize,
    /// The end of the name.
    pub name_end: usize,
    /// The start and the end of the value, quotes included, if there is one.
    pub value: Option<(usize, usize)>,
    /// The end of the directive.
    pub end: usize,
}

// Whether a byte belongs to a name or a bare value (a token of RFC 9110 section 5.6.2, or any byte
// past ASCII).
fn is_token_byte(b: u8) -> bool
    ensures { result ≡ is_token_byte b }
{
    match b {
        0..=0x20 | 0x7F => false,
        b'('
        | b')'
        | b'<'
        | b'>'
        | b'@'
        | b','
        | b';'
        | b':'
        | b'\\'
        | b'"'
        | b'/'
        | b'['
        | b']'
        | b'?'
        | b'='
        | b'{'
        | b'}' => false,
        _ => true,
    }
}

// Whether a byte separates directives: a comma or a semicolon.
fn is_delimiter(b: u8) -> bool
    ensures { result ≡ is_delimiter b }
{
    b == b',' || b == b';'
}

// Whether a byte is ASCII white space.
fn is_white_space(b: u8) -> bool
    ensures { result ≡ is_white_space b }
{
    (0x09 <= b && b <= 0x0D) || b == b' '
}

// The end of the run of token bytes from `at` on.
fn token_end(line: &[u8], at: usize) -> usize
    requires { at ≤ length line.now }
    ensures { IsLongestRun line.now at result }
{
    let mut end = at;
    'run: while end < line.len() && is_token_byte(line[end]) {
        end += 1;
    }
    end
}

// The index after the closing quote, where `at` is the one after the opening quote.
fn quote_end(line: &[u8], at: usize) -> Option<usize>
    requires { at ≤ length line.now }
    ensures found { IfSome result (λ end. IsClosed line.now at end) }
    ensures none { IfNone result ((end : ℕ) → ¬ (IsClosed line.now at end)) }
    ensures behind { IfSome result (λ end. at < end) }
    ensures within { IfSome result (λ end. end ≤ length line.now) }
{
    let mut escaped = false;
    'bytes: for i in at..line.len() {
        let b = line[i];
        if escaped {
            if b == b'\n' {
                return None;
            }
            escaped = false;
        } else if b == b'"' {
            return Some(i + 1);
        } else {
            escaped = b == b'\\';
        }
    }
    None
}

// The value after a name that ends at `name_end`.
fn value_at(line: &[u8], name_end: usize) -> Option<(usize, usize)>
    requires { name_end ≤ length line.now }
    ensures found { IfSome result (λ v. HasValue line.now name_end v) }
    ensures none { IfNone result ((v : ℕ × ℕ) → ¬ (HasValue line.now name_end v)) }
    ensures behind { IfSome result (λ v. name_end < v.1) }
    ensures order { IfSome result (λ v. v.0 ≤ v.1) }
    ensures within { IfSome result (λ v. v.1 ≤ length line.now) }
{
    if name_end >= line.len() || line[name_end] != b'=' {
        return None;
    }
    let start = name_end + 1;
    let end = token_end(line, start);
    if start < end {
        return Some((start, end));
    }
    if start >= line.len() || line[start] != b'"' {
        return None;
    }
    let Some(end) = quote_end(line, start + 1) else {
        return None;
    };
    Some((start, end))
}

// The index of the first byte from `at` on that is no white space.
fn skip_white_space(line: &[u8], at: usize) -> usize
    requires { at ≤ length line.now }
    ensures { IsWhiteSpaceRun line.now at result }
{
    let mut end = at;
    'run: while end < line.len() && is_white_space(line[end]) {
        end += 1;
    }
    end
}

// The start of a directive to which the delimiter at `at` leads, if there is a delimiter and a
// start.
fn start_behind(line: &[u8], at: usize) -> Option<usize>
    requires { at < length line.now }
    ensures found { IfSome result (λ s. Leads line.now at s) }
    ensures none { IfNone result ((s : ℕ) → ¬ (Leads line.now at s)) }
{
    if !is_delimiter(line[at]) {
        return None;
    }
    let start = skip_white_space(line, at + 1);
    if start < line.len() && is_token_byte(line[start]) {
        Some(start)
    } else {
        None
    }
}

// The first start to which a delimiter from `from` on leads.
fn next_start(line: &[u8], from: usize) -> Option<usize>
    requires { from ≤ length line.now }
    ensures found { IfSome result (λ s. IsFirstStart line.now from s) }
    ensures none { IfNone result ((d s : ℕ) → from ≤ d → ¬ (Leads line.now d s)) }
{
    'places: for i in from..line.len() {
        if let Some(start) = start_behind(line, i) {
            return Some(start);
        }
    }
    None
}

// The first start of a directive from `from` on, where the directive before ended.
fn search(line: &[u8], from: usize) -> Option<usize>
    requires { from ≤ length line.now }
    ensures found { IfSome result (λ s. IsNextStart line.now from s) }
    ensures none { IfNone result ((s : ℕ) → from ≤ s → ¬ (IsAdmitted line.now from s)) }
{
    if from == 0 && from < line.len() && is_token_byte(line[0]) {
        return Some(0);
    }
    next_start(line, from)
}

// The directive that starts at `start`.
fn directive_at(line: &[u8], start: usize) -> Span
    requires { IsTokenAt line.now start }
    ensures start { result.start ≡ start }
    ensures directive { IsDirective line.now result }
    ensures value_order { IfSome result.value (λ v. v.0 ≤ v.1) }
    ensures value_within { IfSome result.value (λ v. v.1 ≤ length line.now) }
    ensures progress { start < result.end }
    ensures within { result.end ≤ length line.now }
{
    let name_end = token_end(line, start);
    let value = value_at(line, name_end);
    let end = match value {
        Some((_, end)) => end,
        None => name_end,
    };
    Span {
        start,
        name_end,
        value,
        end,
    }
}

/// The directives of a line, from left to right. A contract sees the line and the index from which
/// the next directive is sought.
#[derive(Drop)]
pub struct Directives<'a> {
    line: &'a [u8],
    from: usize,
}

impl<'a> Model for Directives<'a> {
    ghost use Rattle.std.specs.Prelude.{◌≤◌, ℕ, List, length};

    ghost Value = { List ℕ × ℕ };

    ghost view = { λ d. (d.line.now, d.from) };

    ghost invariant = { λ d. d.from ≤ length d.line.now };
}

impl<'a> Directives<'a> {
    /// The directives of a Cache-Control line.
    pub fn new(line: &'a [u8]) -> Directives<'a>
        ensures { result ≡ (line.now, 0) }
    {
        Directives { line, from: 0 }
    }
}

impl<'a> Iterator for Directives<'a> {
    ghost use Rattle.std.specs.Iterator.{at_most};
    ghost use Rattle.pcache_control.specs.Directives.{FindsNext};

    type Item = Span;

    ghost next_gives = { FindsNext };

    ghost remaining = { λ d. at_most (length d.0 - d.1) };

    fn next(&mut self) -> Option<Span> {
        let Some(start) = search(self.line, self.from) else {
            return None;
        };
        let span = directive_at(self.line, start);
        self.from = span.end;
        Some(span)
    }
}
