// The lines of a script, and the fields of a line, which blanks keep apart.
ghost use Rattle.std.specs.Prelude.{◌≡◌, ℕ, ◌<◌, ◌≤◌, length, drop, Bool};
ghost use Rattle.std.specs.Str.{bytes_eq};
ghost use Rattle.std.specs.Iterator.{YieldsFirstBy, at_most};
ghost use Rattle.script.specs.Fields.{Tests, after_field, field_of, from_on, is_blank, is_hash, is_line_feed, is_visible, lines_of, up_to};

// Whether a byte is a space, a tab or the end of a line.
pub fn is_blank(byte: &u8) -> bool
    ensures { result ≡ is_blank byte.now }
{
    matches!(*byte, b' ' | b'\t' | b'\r' | b'\n')
}

// Whether a byte is no blank.
pub fn is_visible(byte: &u8) -> bool
    ensures { result ≡ is_visible byte.now }
{
    !is_blank(byte)
}

// Whether a byte ends a line.
pub fn is_line_feed(byte: &u8) -> bool
    ensures { result ≡ is_line_feed byte.now }
{
    *byte == b'\n'
}

// Whether a byte begins a comment.
pub fn is_hash(byte: &u8) -> bool
    ensures { result ≡ is_hash byte.now }
{
    *byte == b'#'
}

// How many bytes stand before the first that passes a test.
fn find<F: Fn(&u8) -> bool>(bytes: &[u8], stops: F) -> usize
    requires { F.IsAlwaysCallable stops }
    ensures place { (stop : ℕ → Bool) → Tests F.Fn stops stop → result ≡ length (up_to stop bytes.now) }
    ensures bound { result ≤ length bytes.now }
{
    bytes.iter().position(stops).unwrap_or(bytes.len())
}

// The bytes before the first that passes a test, and those from it on. (The test must be callable: whoever calls a closure asks that of it.)
pub fn split_at_first<F: Fn(&u8) -> bool>(bytes: &[u8], stops: F) -> (&[u8], &[u8])
    requires { F.IsAlwaysCallable stops }
    ensures front { (stop : ℕ → Bool) → Tests F.Fn stops stop → result.0.now ≡ up_to stop bytes.now }
    ensures back { (stop : ℕ → Bool) → Tests F.Fn stops stop → result.1.now ≡ from_on stop bytes.now }
{
    bytes.split_at(find(bytes, stops))
}

// The first line of some bytes, and the bytes after its line feed.
pub fn split_line(bytes: &[u8]) -> (&[u8], &[u8])
    ensures front { result.0.now ≡ up_to is_line_feed bytes.now }
    ensures back { result.1.now ≡ drop 1 (from_on is_line_feed bytes.now) }
    ensures falls { 0 < length bytes.now → length result.1.now < length bytes.now }
{
    let (line, after) = split_at_first(bytes, is_line_feed);
    match after {
        [_, rest @ ..] => (line, rest),
        [] => (line, after),
    }
}

// A line up to its comment.
pub fn without_comment(line: &[u8]) -> &[u8]
    ensures { result.now ≡ up_to is_hash line.now }
{
    let (text, _) = split_at_first(line, is_hash);
    text
}

// The first field of some bytes, and the bytes after it; the field is empty where there is none.
pub fn split_field(bytes: &[u8]) -> (&[u8], &[u8])
    ensures front { result.0.now ≡ field_of bytes.now }
    ensures back { result.1.now ≡ after_field bytes.now }
{
    let (_, text) = split_at_first(bytes, is_visible);
    split_at_first(text, is_blank)
}

// Whether a field is a text. (It gives `==` of two slices the word that the definitions of lines have for it.)
pub fn is_text(field: &[u8], text: &[u8]) -> bool
    ensures { result ≡ bytes_eq field.now text.now }
{
    field == text
}

// The lines of some bytes, without their line feeds. The last may lack it, and none comes after it.
#[derive(Drop)]
pub struct Lines<'a> {
    pub rest: &'a [u8],
}

pub fn lines_of(bytes: &[u8]) -> Lines<'_>
    ensures { result.rest.now ≡ bytes.now }
{
    Lines { rest: bytes }
}

impl<'a> Iterator for Lines<'a> {
    type Item = &'a [u8];

    ghost next_gives = { YieldsFirstBy (λ line. line.now) (λ s. lines_of s.rest.now) };

    ghost remaining = { λ s. at_most (length s.rest.now) };

    fn next(&mut self) -> Option<&'a [u8]> {
        if self.rest.is_empty() {
            return None;
        }
        let (line, rest) = split_line(self.rest);
        self.rest = rest;
        Some(line)
    }
}
