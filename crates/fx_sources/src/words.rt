//! The lines of a text, and the words of a line.
ghost use Rattle.std.specs.Prelude.{◌≡◌, ◌∷◌, [], ◌+◌, ◌<◌, ◌≤◌, ◌==◌, drop, length, MatchOption};
ghost use Rattle.std.specs.List.{position_or_len};
ghost use Rattle.std.specs.Str.Lines.{lines, strip_carriage_return};
ghost use Rattle.fx_sources.specs.Lines.{words};
ghost use Rattle.fx_sources.specs.Lines as spec;

use fx_terms::blanks::is_blank;

// The first line, without its end, and what is behind it.
pub fn first_line(text: &[u8]) -> (&[u8], &[u8])
    requires { 0 < length text.now }
    ensures first { lines text.now ≡ result.0.now ∷ lines result.1.now }
    ensures shorter { length result.1.now < length text.now }
{
    let place = line_feed_place(text);
    if place == text.len() {
        return (text, behind(text, place));
    }
    (without_return(&text[..place]), behind(text, place))
}

// The first word, and what is behind it and the blank after it.
pub fn first_word(line: &[u8]) -> Option<(&[u8], &[u8])>
    ensures { MatchOption result (words line.now ≡ []) (λ r. words line.now ≡ r.0.now ∷ words r.1.now) }
{
    let mut left = line;
    while !left.is_empty() {
        let place = blank_place(left);
        let word = &left[..place];
        left = behind(left, place);
        if !word.is_empty() {
            return Some((word, left));
        }
    }
    None
}

// What is behind the byte at a place, or nothing at the end.
fn behind(bytes: &[u8], place: usize) -> &[u8]
    requires { place ≤ length bytes.now }
    ensures { result.now ≡ drop (place + 1) bytes.now }
{
    if place == bytes.len() {
        &bytes[place..]
    } else {
        &bytes[place + 1..]
    }
}

// A line without the one carriage return at its end, where it has one.
fn without_return(line: &[u8]) -> &[u8]
    ensures { result.now ≡ strip_carriage_return line.now }
{
    match line {
        [rest @ .., b'\r'] => rest,
        _ => line,
    }
}

// Where the first line feed stands, or the end where none does.
fn line_feed_place(text: &[u8]) -> usize
    ensures place { result ≡ position_or_len (λ b. b == 10) text.now }
    ensures within { result ≤ length text.now }
{
    let mut place = 0;
    for b in text {
        if *b == b'\n' {
            return place;
        }
        place += 1;
    }
    place
}

// Where the first blank stands, or the end where none does.
fn blank_place(line: &[u8]) -> usize
    ensures place { result ≡ position_or_len spec.is_blank line.now }
    ensures within { result ≤ length line.now }
{
    let mut place = 0;
    for b in line {
        if is_blank(*b as char) {
            return place;
        }
        place += 1;
    }
    place
}
