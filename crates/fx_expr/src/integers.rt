//! The types of integers, and the good forms of each.
ghost use Rattle.std.specs.Prelude.{◌≡◌, ◌≤◌, true, length, drop, nat_le, int_le, option_map, IfSome};
ghost use Rattle.std.specs.List.{list_all};
ghost use Rattle.std.specs.Str.{bytes_eq};
ghost use Rattle.std.specs.Str.Parse.{digits_value, signed_digits_value, starts_with_minus, without_leading_sign};
ghost use Rattle.fx_terms.specs.Iris.{is_digit};
ghost use Rattle.fx_algebra.specs.Worths as spec;
ghost use Rattle.fx_expr.specs.Digits.{IsPlain, signed, without_zeros as without_zeros_of};

use fx_algebra::IntegerType;
use fx_terms::Iri;
use fx_terms::datatypes::XSD;

// ---- types

/// The type of integers that a datatype is: xsd:integer, or one that XML Schema derives from it.
#[tactic(auto, unfolding(fx_algebra::specs::Worths::integer_type))]
pub(crate) fn integer_type(datatype: &Iri) -> Option<IntegerType>
    ensures { result ≡ spec.integer_type datatype.now }
{
    match schema_name(datatype.text().as_bytes()) {
        Some(name) => type_named(name),
        None => None,
    }
}

// What stands behind the namespace of XML Schema in a datatype, if it is of that namespace.
fn schema_name(datatype: &[u8]) -> Option<&[u8]>
    ensures { option_map (λ name. name.now) result ≡ spec.schema_name datatype.now }
{
    datatype.strip_prefix(XSD)
}

// The type of a name.
fn type_named(name: &[u8]) -> Option<IntegerType>
    ensures { result ≡ spec.type_named name.now }
{
    if is_text(name, b"integer") {
        Some(IntegerType::Integer)
    } else if is_text(name, b"nonPositiveInteger") {
        Some(IntegerType::NonPositiveInteger)
    } else if is_text(name, b"negativeInteger") {
        Some(IntegerType::NegativeInteger)
    } else if is_text(name, b"nonNegativeInteger") {
        Some(IntegerType::NonNegativeInteger)
    } else if is_text(name, b"positiveInteger") {
        Some(IntegerType::PositiveInteger)
    } else if is_text(name, b"long") {
        Some(IntegerType::Long)
    } else if is_text(name, b"int") {
        Some(IntegerType::Int)
    } else if is_text(name, b"short") {
        Some(IntegerType::Short)
    } else if is_text(name, b"byte") {
        Some(IntegerType::Byte)
    } else if is_text(name, b"unsignedLong") {
        Some(IntegerType::UnsignedLong)
    } else if is_text(name, b"unsignedInt") {
        Some(IntegerType::UnsignedInt)
    } else if is_text(name, b"unsignedShort") {
        Some(IntegerType::UnsignedShort)
    } else if is_text(name, b"unsignedByte") {
        Some(IntegerType::UnsignedByte)
    } else {
        None
    }
}

fn is_text(text: &[u8], other: &[u8]) -> bool
    ensures { result ≡ bytes_eq text.now other.now }
{
    text == other
}

// The least number of a type, where it has one.
#[tactic(auto, unfolding(fx_algebra::specs::Worths::is_integer_form))]
fn least(kind: IntegerType) -> Option<&'static str>
    ensures value { option_map (λ form. signed_digits_value 10 form.now) result ≡ spec.least kind }
    ensures written { IfSome result (λ form. spec.is_integer_form form.now ≡ true) }
{
    match kind {
        IntegerType::Integer => None,
        IntegerType::NonPositiveInteger => None,
        IntegerType::NegativeInteger => None,
        IntegerType::NonNegativeInteger => Some("0"),
        IntegerType::PositiveInteger => Some("1"),
        IntegerType::Long => Some("-9223372036854775808"),
        IntegerType::Int => Some("-2147483648"),
        IntegerType::Short => Some("-32768"),
        IntegerType::Byte => Some("-128"),
        IntegerType::UnsignedLong => Some("0"),
        IntegerType::UnsignedInt => Some("0"),
        IntegerType::UnsignedShort => Some("0"),
        IntegerType::UnsignedByte => Some("0"),
    }
}

// The greatest number of a type, where it has one.
#[tactic(auto, unfolding(fx_algebra::specs::Worths::is_integer_form))]
fn greatest(kind: IntegerType) -> Option<&'static str>
    ensures value { option_map (λ form. signed_digits_value 10 form.now) result ≡ spec.greatest kind }
    ensures written { IfSome result (λ form. spec.is_integer_form form.now ≡ true) }
{
    match kind {
        IntegerType::Integer => None,
        IntegerType::NonPositiveInteger => Some("0"),
        IntegerType::NegativeInteger => Some("-1"),
        IntegerType::NonNegativeInteger => None,
        IntegerType::PositiveInteger => None,
        IntegerType::Long => Some("9223372036854775807"),
        IntegerType::Int => Some("2147483647"),
        IntegerType::Short => Some("32767"),
        IntegerType::Byte => Some("127"),
        IntegerType::UnsignedLong => Some("18446744073709551615"),
        IntegerType::UnsignedInt => Some("4294967295"),
        IntegerType::UnsignedShort => Some("65535"),
        IntegerType::UnsignedByte => Some("255"),
    }
}

// ---- forms

/// Whether a form is a good one of a type: a sign or none, one digit or more, and a number in the type's range. The number isn't
/// computed, so it may be of any length.
#[tactic(auto, unfolding(fx_algebra::specs::Worths::is_good_form))]
pub(crate) fn is_good_form(kind: IntegerType, form: &str) -> bool
    ensures { result ≡ spec.is_good_form kind form.now }
{
    is_integer_form(form) && is_of(kind, form)
}

/// The number that a form writes, where it is one of an `i64`.
pub(crate) fn number_in_range(form: &str) -> Option<i64>
    requires { spec.is_integer_form form.now ≡ true }
    ensures { result ≡ spec.if_in_range (signed_digits_value 10 form.now) }
{
    form.parse::<i64>().ok()
}

// Whether a form is a sign or none, and then one digit or more.
#[tactic(auto, unfolding(fx_algebra::specs::Worths::is_integer_form))]
fn is_integer_form(form: &str) -> bool
    ensures { result ≡ spec.is_integer_form form.now }
{
    let digits = without_sign(form.as_bytes());
    !digits.is_empty() && has_digits(digits)
}

// Whether the number that a form writes lies in the range of a type.
fn is_of(kind: IntegerType, form: &str) -> bool
    requires { spec.is_integer_form form.now ≡ true }
    ensures { result ≡ spec.is_of kind (signed_digits_value 10 form.now) }
{
    is_from(kind, form) && is_up_to(kind, form)
}

fn is_from(kind: IntegerType, form: &str) -> bool
    requires { spec.is_integer_form form.now ≡ true }
    ensures { result ≡ spec.is_from (spec.least kind) (signed_digits_value 10 form.now) }
{
    match least(kind) {
        Some(low) => is_at_most(low, form),
        None => true,
    }
}

fn is_up_to(kind: IntegerType, form: &str) -> bool
    requires { spec.is_integer_form form.now ≡ true }
    ensures { result ≡ spec.is_up_to (spec.greatest kind) (signed_digits_value 10 form.now) }
{
    match greatest(kind) {
        Some(high) => is_at_most(form, high),
        None => true,
    }
}

// Whether the number of a form is at most that of another, however long they are.
fn is_at_most(left: &str, right: &str) -> bool
    requires left { spec.is_integer_form left.now ≡ true }
    requires right { spec.is_integer_form right.now ≡ true }
    ensures { result ≡ int_le (signed_digits_value 10 left.now) (signed_digits_value 10 right.now) }
{
    are_in_order(
        is_negative(left),
        magnitude(left),
        is_negative(right),
        magnitude(right),
    )
}

// ---- digits

// Whether a number is at most another, each by its sign and its digits.
fn are_in_order(left_negative: bool, left: &[u8], right_negative: bool, right: &[u8]) -> bool
    requires left { IsPlain left.now }
    requires right { IsPlain right.now }
    ensures { result ≡ int_le (signed left_negative (digits_value 10 left.now)) (signed right_negative (digits_value 10 right.now)) }
{
    if left_negative {
        if right_negative {
            are_digits_in_order(right, left)
        } else {
            true
        }
    } else if right_negative {
        left.is_empty() && right.is_empty()
    } else {
        are_digits_in_order(left, right)
    }
}

// Whether a number is at most another, by their digits: the shorter is the less, and of two as long the one whose text is.
fn are_digits_in_order(left: &[u8], right: &[u8]) -> bool
    requires left { IsPlain left.now }
    requires right { IsPlain right.now }
    ensures { result ≡ nat_le (digits_value 10 left.now) (digits_value 10 right.now) }
{
    left.len().cmp(&right.len()).then(left.cmp(right)).is_le()
}

fn is_negative(form: &str) -> bool
    ensures { result ≡ starts_with_minus form.now }
{
    match form.as_bytes() {
        [] => false,
        [first, ..] => *first == b'-',
    }
}

// The digits of a form without the zeros that they begin with.
fn magnitude(form: &str) -> &[u8]
    requires { spec.is_integer_form form.now ≡ true }
    ensures value { digits_value 10 result.now ≡ digits_value 10 (without_leading_sign form.now) }
    ensures plain { IsPlain result.now }
{
    without_zeros(without_sign(form.as_bytes()))
}

fn without_sign(form: &[u8]) -> &[u8]
    ensures { result.now ≡ without_leading_sign form.now }
{
    match form {
        [] => form,
        [first, rest @ ..] => {
            if *first == b'-' || *first == b'+' {
                rest
            } else {
                form
            }
        }
    }
}

fn has_digits(digits: &[u8]) -> bool
    ensures { result ≡ list_all is_digit digits.now }
{
    digits.iter().all(|b| b.is_ascii_digit())
}

fn without_zeros(digits: &[u8]) -> &[u8]
    ensures { result.now ≡ without_zeros_of digits.now }
{
    let (_, rest) = digits.split_at(count_zeros(digits));
    rest
}

// How many zeros digits begin with.
fn count_zeros(digits: &[u8]) -> usize
    ensures rest { drop result digits.now ≡ without_zeros_of digits.now }
    ensures within { result ≤ length digits.now }
{
    let mut zeros = 0;
    while zeros < digits.len() && digits[zeros] == b'0' {
        zeros += 1;
    }
    zeros
}
