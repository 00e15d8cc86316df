//! The fields of a head, by their names.
ghost use Rattle.std.specs.Prelude.{◌≡◌, ◌≤◌, All, length, map, true};
ghost use Rattle.std.specs.List.{before_first, list_all, position_or_len};
ghost use Rattle.std.specs.Option.{option_copied};
ghost use Rattle.std.specs.Str.{all_ascii_digits, str_eq_ignore_ascii_case};
ghost use Rattle.std.specs.Str.Parse.{digits_value};
ghost use Rattle.httparse.specs.Grammar.{trim_ows};
ghost use Rattle.httparse.specs.Spans.{IsHeaderWithin, header_bytes};
ghost use Rattle.fx_http.specs.Fields as field;

use fx_terms::blanks::is_blank;
use httparse::spans::HeaderSpan;
use std::str;

// The value of a field, where one alone has the name.
pub fn only_value<'a>(bytes: &'a [u8], headers: &[HeaderSpan], name: &[u8]) -> Option<&'a [u8]>
    requires { All (IsHeaderWithin (length bytes.now)) headers.now }
    ensures { option_copied result ≡ field.only (field.values name.now (map (header_bytes bytes.now) headers.now)) }
{
    let mut found = None;
    for header in headers {
        if is_same(header.name.of(bytes), name) {
            if found.is_some() {
                return None;
            }
            found = Some(header.value.of(bytes));
        }
    }
    found
}

// Whether no field has the name.
pub fn is_missing(bytes: &[u8], headers: &[HeaderSpan], name: &[u8]) -> bool
    requires { All (IsHeaderWithin (length bytes.now)) headers.now }
    ensures { result ≡ field.is_missing name.now (map (header_bytes bytes.now) headers.now) }
{
    for header in headers {
        if is_same(header.name.of(bytes), name) {
            return false;
        }
    }
    true
}

// Whether two fields or more have the name.
pub fn is_repeated(bytes: &[u8], headers: &[HeaderSpan], name: &[u8]) -> bool
    requires { All (IsHeaderWithin (length bytes.now)) headers.now }
    ensures { result ≡ field.is_repeated name.now (map (header_bytes bytes.now) headers.now) }
{
    !is_missing(bytes, headers, name) && only_value(bytes, headers, name).is_none()
}

// Whether each value of the fields of the name is a number.
pub fn are_numbers(bytes: &[u8], headers: &[HeaderSpan], name: &[u8]) -> bool
    requires { All (IsHeaderWithin (length bytes.now)) headers.now }
    ensures { result ≡ list_all field.is_number (field.values name.now (map (header_bytes bytes.now) headers.now)) }
{
    for header in headers {
        if is_same(header.name.of(bytes), name) && !is_number(header.value.of(bytes)) {
            return false;
        }
    }
    true
}

// The media type of a field's value, without its parameters.
pub fn media_type(value: &[u8]) -> &[u8]
    ensures { result.now ≡ field.media_type value.now }
{
    trim(before_semicolon(value))
}

// The number that 1 to 19 digits give.
pub fn number(value: &[u8]) -> u64
    requires { field.is_number value.now ≡ true }
    ensures { result ≡ digits_value 10 value.now }
{
    let Ok(text) = str::from_utf8(value) else {
        unreachable!()
    };
    match text.parse::<u64>() {
        Ok(number) => number,
        Err(_) => unreachable!(),
    }
}

pub fn is_number(value: &[u8]) -> bool
    ensures { result ≡ field.is_number value.now }
{
    !value.is_empty() && value.len() <= 19 && has_digits(value)
}

fn has_digits(value: &[u8]) -> bool
    ensures { result ≡ all_ascii_digits value.now }
{
    for b in value {
        if !b.is_ascii_digit() {
            return false;
        }
    }
    true
}

pub fn is_same(a: &[u8], b: &[u8]) -> bool
    ensures { result ≡ str_eq_ignore_ascii_case a.now b.now }
{
    a.eq_ignore_ascii_case(b)
}

fn before_semicolon(value: &[u8]) -> &[u8]
    ensures { result.now ≡ before_first field.is_semicolon value.now }
{
    &value[..semicolon_place(value)]
}

// Where the first semicolon stands, or the end where none does.
fn semicolon_place(value: &[u8]) -> usize
    ensures place { result ≡ position_or_len field.is_semicolon value.now }
    ensures within { result ≤ length value.now }
{
    let mut place = 0;
    for b in value {
        if *b == b';' {
            return place;
        }
        place += 1;
    }
    place
}

// The bytes without the blanks at both ends.
fn trim(bytes: &[u8]) -> &[u8]
    ensures { result.now ≡ trim_ows bytes.now }
{
    let mut start = 0;
    let mut end = bytes.len();
    while start < end && is_blank(bytes[start] as char) {
        start += 1;
    }
    while start < end && is_blank(bytes[end - 1] as char) {
        end -= 1;
    }
    &bytes[start..end]
}
