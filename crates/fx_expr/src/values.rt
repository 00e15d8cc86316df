//! Values of expressions.
ghost use Rattle.std.specs.Prelude.{◌≡◌, ◌*ℤ◌, neg_ℤ, map, option_map, option_and_then, IfOk, Some, pos};
ghost use Rattle.fx_algebra.specs.Values as spec;
ghost use Rattle.fx_algebra.specs.Worths.{if_in_range};
ghost use Rattle.fx_algebra.specs.Solutions.{same_term as same_term_of, term_of};
ghost use Rattle.fx_terms.specs.Terms.{form_of as form_of_term};

use crate::texts::{boolean, integer, string};
use crate::words::{
    begins, count_characters, ends, forms, has_part, in_language, string_form, worded_form,
};
use crate::worths::{truth, worth_of};
use fx_algebra::{Compare, Expr, Function, Sign, Solution, Worth};
use fx_terms::{Memory, Name, Term};
use std::alloc::Global;
use std::cmp::Ordering;

// ---- values that may be the error

fn truth_of(value: &Option<Term>) -> Option<bool>
    ensures { result ≡ spec.truth_of value.now }
{
    match value {
        Some(term) => truth(term),
        None => None,
    }
}

#[tactic(auto, unfolding(fx_algebra::specs::Values::integer_in))]
fn integer_in(value: &Option<Term>) -> Option<i64>
    ensures { result ≡ spec.integer_in value.now }
{
    match value {
        Some(term) => integer_by(worth_of(term)),
        None => None,
    }
}

fn integer_by(worth: Worth) -> Option<i64>
    ensures { result ≡ spec.integer_by worth }
{
    match worth {
        Worth::Integer(number) => Some(number),
        Worth::Boolean(_) => None,
        Worth::Text => None,
        Worth::Opaque => None,
    }
}

fn truth_term(alloc: Global, truth: Option<bool>) -> Result<Option<Term>, Memory>
    ensures { IfOk result (λ v. v ≡ option_map spec.boolean truth) }
{
    match truth {
        Some(truth) => Ok(Some(boolean(alloc, truth)?)),
        None => Ok(None),
    }
}

fn integer_term(alloc: Global, number: Option<i64>) -> Result<Option<Term>, Memory>
    ensures { IfOk result (λ v. v ≡ option_map spec.integer number) }
{
    match number {
        Some(number) => Ok(Some(integer(alloc, number)?)),
        None => Ok(None),
    }
}

// ---- integers

fn negative(number: i64) -> Option<i64>
    ensures { result ≡ if_in_range (neg_ℤ number) }
{
    number.checked_neg()
}

fn multiplied(left: i64, right: i64) -> Option<i64>
    ensures { result ≡ if_in_range (left *ℤ right) }
{
    left.checked_mul(right)
}

fn added(sign: Sign, left: i64, right: i64) -> Option<i64>
    ensures { result ≡ if_in_range (spec.with_sign sign left right) }
{
    match sign {
        Sign::Plus => left.checked_add(right),
        Sign::Minus => left.checked_sub(right),
    }
}

fn in_range(count: usize) -> Option<i64>
    ensures { result ≡ if_in_range (pos count) }
{
    i64::try_from(count).ok()
}

// The sum with one more value under a sign.
#[tactic(auto, unfolding(fx_algebra::specs::Values::with_part))]
fn with_part(sign: Sign, sum: i64, value: &Option<Term>) -> Option<i64>
    ensures { result ≡ spec.with_part sign sum value.now }
{
    match integer_in(value) {
        Some(number) => added(sign, sum, number),
        None => None,
    }
}

// The product with one more value.
#[tactic(auto, unfolding(fx_algebra::specs::Values::with_factor))]
fn with_factor(product: i64, value: &Option<Term>) -> Option<i64>
    ensures { result ≡ spec.with_factor product value.now }
{
    match integer_in(value) {
        Some(number) => multiplied(product, number),
        None => None,
    }
}

// ---- comparisons

fn is_same(left: &Term, right: &Term) -> bool
    ensures { result ≡ same_term_of left.now right.now }
{
    left.compare(right) == Ordering::Equal
}

fn same_terms(left: &Term, right: &Term) -> Option<bool>
    ensures { result ≡ spec.same_terms left.now right.now }
{
    match left {
        Term::Iri(_) => Some(is_same(left, right)),
        Term::Literal(_) => match right {
            Term::Iri(_) => Some(false),
            Term::Literal(_) => is_same(left, right).then_some(true),
        },
    }
}

pub(crate) fn form_of(term: &Term) -> &str
    ensures { result.now ≡ form_of_term term.now }
{
    match term {
        Term::Iri(iri) => iri.text(),
        Term::Literal(literal) => literal.form(),
    }
}

#[tactic(auto, unfolding(fx_algebra::specs::Values::equal))]
fn equal(left: &Term, right: &Term) -> Option<bool>
    ensures { result ≡ spec.equal left.now right.now }
{
    equal_by(worth_of(left), worth_of(right), left, right)
}

fn equal_by(v: Worth, w: Worth, left: &Term, right: &Term) -> Option<bool>
    ensures { result ≡ spec.equal_by v w left.now right.now }
{
    match v {
        Worth::Integer(m) => match w {
            Worth::Integer(n) => Some(m == n),
            Worth::Boolean(_) => same_terms(left, right),
            Worth::Text => same_terms(left, right),
            Worth::Opaque => same_terms(left, right),
        },
        Worth::Boolean(p) => match w {
            Worth::Boolean(q) => Some(p.cmp(&q) == Ordering::Equal),
            Worth::Integer(_) => same_terms(left, right),
            Worth::Text => same_terms(left, right),
            Worth::Opaque => same_terms(left, right),
        },
        Worth::Text => match w {
            Worth::Text => Some(form_of(left) == form_of(right)),
            Worth::Integer(_) => same_terms(left, right),
            Worth::Boolean(_) => same_terms(left, right),
            Worth::Opaque => same_terms(left, right),
        },
        Worth::Opaque => same_terms(left, right),
    }
}

#[tactic(auto, unfolding(fx_algebra::specs::Values::order))]
fn order(left: &Term, right: &Term) -> Option<Ordering>
    ensures { result ≡ spec.order left.now right.now }
{
    order_by(worth_of(left), worth_of(right), left, right)
}

fn order_by(v: Worth, w: Worth, left: &Term, right: &Term) -> Option<Ordering>
    ensures { result ≡ spec.order_by v w left.now right.now }
{
    match v {
        Worth::Integer(m) => match w {
            Worth::Integer(n) => Some(m.cmp(&n)),
            Worth::Boolean(_) => None,
            Worth::Text => None,
            Worth::Opaque => None,
        },
        Worth::Boolean(p) => match w {
            Worth::Boolean(q) => Some(p.cmp(&q)),
            Worth::Integer(_) => None,
            Worth::Text => None,
            Worth::Opaque => None,
        },
        Worth::Text => match w {
            Worth::Text => Some(form_of(left).cmp(form_of(right))),
            Worth::Integer(_) => None,
            Worth::Boolean(_) => None,
            Worth::Opaque => None,
        },
        Worth::Opaque => None,
    }
}

fn compared(op: Compare, left: &Term, right: &Term) -> Option<bool>
    ensures { result ≡ spec.compared op left.now right.now }
{
    match op {
        Compare::Equal => equal(left, right),
        Compare::NotEqual => match equal(left, right) {
            Some(equal) => Some(!equal),
            None => None,
        },
        Compare::Less => match order(left, right) {
            Some(order) => Some(order.is_lt()),
            None => None,
        },
        Compare::Greater => match order(left, right) {
            Some(order) => Some(order.is_gt()),
            None => None,
        },
        Compare::LessOrEqual => match order(left, right) {
            Some(order) => Some(order.is_le()),
            None => None,
        },
        Compare::GreaterOrEqual => match order(left, right) {
            Some(order) => Some(order.is_ge()),
            None => None,
        },
    }
}

fn both_equal(left: &Option<Term>, right: &Option<Term>) -> Option<bool>
    ensures { result ≡ spec.on_both spec.equal left.now right.now }
{
    match left {
        None => None,
        Some(left) => match right {
            None => None,
            Some(right) => equal(left, right),
        },
    }
}

fn both_compared(op: Compare, left: &Option<Term>, right: &Option<Term>) -> Option<bool>
    ensures { result ≡ spec.on_both (spec.compared op) left.now right.now }
{
    match left {
        None => None,
        Some(left) => match right {
            None => None,
            Some(right) => compared(op, left, right),
        },
    }
}

// ---- functions of terms

fn of_one(alloc: Global, function: Function, term: &Term) -> Result<Option<Term>, Memory>
    ensures { IfOk result (λ v. v ≡ spec.of_one function term.now) }
{
    match function {
        Function::Str => Ok(Some(string(alloc, form_of(term))?)),
        Function::Lang => language(alloc, term),
        Function::Datatype => datatype(term),
        Function::StrLen => integer_term(alloc, characters(term)),
        Function::IsIri => truth_term(alloc, Some(is_iri(term))),
        Function::IsLiteral => truth_term(alloc, Some(!is_iri(term))),
        Function::IsBlank => truth_term(alloc, Some(false)),
        Function::IsNumeric => truth_term(alloc, Some(is_numeric(term))),
        _ => Ok(None),
    }
}

fn language(alloc: Global, term: &Term) -> Result<Option<Term>, Memory>
    ensures { IfOk result (λ v. v ≡ spec.language term.now) }
{
    match term {
        Term::Iri(_) => Ok(None),
        Term::Literal(literal) => Ok(Some(string(alloc, literal.tag())?)),
    }
}

fn datatype(term: &Term) -> Result<Option<Term>, Memory>
    ensures { IfOk result (λ v. v ≡ spec.datatype term.now) }
{
    match term {
        Term::Iri(_) => Ok(None),
        Term::Literal(literal) => Ok(Some(Term::Iri(literal.datatype().copy()?))),
    }
}

fn characters(term: &Term) -> Option<i64>
    ensures { result ≡ spec.characters term.now }
{
    match worded_form(term) {
        Some(form) => in_range(count_characters(form)),
        None => None,
    }
}

fn is_iri(term: &Term) -> bool
    ensures { result ≡ spec.is_iri term.now }
{
    match term {
        Term::Iri(_) => true,
        Term::Literal(_) => false,
    }
}

#[tactic(auto, unfolding(fx_algebra::specs::Values::integer_in))]
fn is_numeric(term: &Term) -> bool
    ensures { result ≡ spec.is_numeric term.now }
{
    integer_by(worth_of(term)).is_some()
}

fn of_two(function: Function, left: &Term, right: &Term) -> Option<bool>
    ensures { result ≡ spec.of_two function left.now right.now }
{
    match function {
        Function::LangMatches => language_matches(string_form(left), string_form(right)),
        Function::SameTerm => Some(is_same(left, right)),
        Function::Contains => match forms(left, right) {
            Some((text, part)) => Some(has_part(text, part)),
            None => None,
        },
        Function::StrStarts => match forms(left, right) {
            Some((text, part)) => Some(begins(text, part)),
            None => None,
        },
        Function::StrEnds => match forms(left, right) {
            Some((text, part)) => Some(ends(text, part)),
            None => None,
        },
        _ => None,
    }
}

fn language_matches(tag: Option<&str>, range: Option<&str>) -> Option<bool>
    ensures { result ≡ spec.language_matches (option_map (λ f. f.now) tag.entry) (option_map (λ f. f.now) range.entry) }
{
    match tag {
        None => None,
        Some(tag) => match range {
            None => None,
            Some(range) => Some(in_language(tag, range)),
        },
    }
}

fn both_tested(function: Function, left: &Option<Term>, right: &Option<Term>) -> Option<bool>
    ensures { result ≡ spec.on_both (spec.of_two function) left.now right.now }
{
    match left {
        None => None,
        Some(left) => match right {
            None => None,
            Some(right) => of_two(function, left, right),
        },
    }
}

// ---- expressions

/// The value of an expression on a solution, or `None` exactly where it is the error of SPARQL 1.1 section 17.
///
/// Integers are those of an `i64`, of xsd:integer or one of the twelve types that XML Schema derives from it, in a form whose number
/// lies in the type's range. A result is of xsd:integer, and an operator whose result leaves the range of an `i64` is an error, from
/// the left. Literals of other datatypes than these, xsd:boolean and xsd:string, and bad or too great forms of these, compare as
/// terms. IF and COALESCE look at no part that they do not need.
#[cycle(value)]
pub fn value(alloc: Global, expr: &Expr, solution: &Solution) -> Result<Option<Term>, Memory>
    ensures { IfOk result (λ v. v ≡ spec.value expr.now solution.now) }
{
    match expr {
        Expr::Variable(name) => bound_to(name, solution),
        Expr::Constant(term) => copied(term),
        Expr::Or(parts) => truth_term(alloc, any_of(alloc, parts.as_slice(), solution)?),
        Expr::And(parts) => truth_term(alloc, all_of(alloc, parts.as_slice(), solution)?),
        Expr::Not(part) => opposite(alloc, part.get(), solution),
        Expr::Positive(part) => positive(alloc, part.get(), solution),
        Expr::Negative(part) => negated(alloc, part.get(), solution),
        Expr::Compare { op, left, right } => {
            let left = value(alloc, left.get(), solution)?;
            compared_with(alloc, *op, left, right.get(), solution)
        }
        Expr::Among {
            negated,
            item,
            list,
        } => {
            let item = value(alloc, item.get(), solution)?;
            found_among(alloc, *negated, item, list.as_slice(), solution)
        }
        Expr::Sum { first, rest } => {
            let first = integer_on(alloc, first.get(), solution)?;
            integer_term(alloc, sum(alloc, first, rest.as_slice(), solution)?)
        }
        Expr::Product(parts) => { integer_term(alloc, product(alloc, parts.as_slice(), solution)?) }
        Expr::Call { function, args } => call(alloc, *function, args.as_slice(), solution),
    }
}

// The term that a variable is bound to.
fn bound_to(name: &Name, solution: &Solution) -> Result<Option<Term>, Memory>
    ensures { IfOk result (λ v. v ≡ term_of solution.now name.now) }
{
    match solution.get(name) {
        Some(term) => Ok(Some(term.copy()?)),
        None => Ok(None),
    }
}

fn copied(term: &Term) -> Result<Option<Term>, Memory>
    ensures { IfOk result (λ v. v ≡ Some term.now) }
{
    Ok(Some(term.copy()?))
}

// The truth of an expression's value.
#[cycle(value)]
pub(crate) fn truth_on(
    alloc: Global,
    expr: &Expr,
    solution: &Solution,
) -> Result<Option<bool>, Memory>
    ensures { IfOk result (λ truth. truth ≡ spec.truth_of (spec.value expr.now solution.now)) }
{
    Ok(truth_of(&value(alloc, expr, solution)?))
}

// The integer that an expression's value is.
#[cycle(value)]
fn integer_on(alloc: Global, expr: &Expr, solution: &Solution) -> Result<Option<i64>, Memory>
    ensures { IfOk result (λ number. number ≡ spec.integer_in (spec.value expr.now solution.now)) }
{
    Ok(integer_in(&value(alloc, expr, solution)?))
}

// The value of `!` on a part.
#[cycle(value)]
fn opposite(alloc: Global, part: &Expr, solution: &Solution) -> Result<Option<Term>, Memory>
    ensures { IfOk result (λ v. v ≡ spec.value (Expr.Not part.now) solution.now) }
{
    match truth_on(alloc, part, solution)? {
        Some(truth) => truth_term(alloc, Some(!truth)),
        None => Ok(None),
    }
}

// The value of `+` on a part.
#[cycle(value)]
fn positive(alloc: Global, part: &Expr, solution: &Solution) -> Result<Option<Term>, Memory>
    ensures { IfOk result (λ v. v ≡ spec.value (Expr.Positive part.now) solution.now) }
{
    integer_term(alloc, integer_on(alloc, part, solution)?)
}

// The value of `-` on a part.
#[cycle(value)]
fn negated(alloc: Global, part: &Expr, solution: &Solution) -> Result<Option<Term>, Memory>
    ensures { IfOk result (λ v. v ≡ spec.value (Expr.Negative part.now) solution.now) }
{
    match integer_on(alloc, part, solution)? {
        Some(number) => integer_term(alloc, negative(number)),
        None => Ok(None),
    }
}

// The value of the comparison of a value with a part.
#[cycle(value)]
fn compared_with(
    alloc: Global,
    op: Compare,
    left: Option<Term>,
    right: &Expr,
    solution: &Solution,
) -> Result<Option<Term>, Memory>
    ensures { IfOk result (λ v. v ≡ option_map spec.boolean (spec.on_both (spec.compared op) left (spec.value right.now solution.now))) }
{
    let truth = both_compared(op, &left, &value(alloc, right, solution)?);
    truth_term(alloc, truth)
}

// The value of `IN`, or of `NOT IN`, on a value.
#[cycle(value)]
fn found_among(
    alloc: Global,
    negated: bool,
    item: Option<Term>,
    list: &[Expr],
    solution: &Solution,
) -> Result<Option<Term>, Memory>
    ensures { IfOk result (λ v. v ≡ option_map spec.boolean (option_map (spec.negated_by negated) (spec.among item (map (λ e. spec.value e solution.now) list.now)))) }
{
    let truth = among(alloc, &item, list, solution)?;
    truth_term(alloc, negated_by(negated, truth))
}

fn negated_by(negated: bool, truth: Option<bool>) -> Option<bool>
    ensures { result ≡ option_map (spec.negated_by negated) truth }
{
    match truth {
        Some(truth) => Some(if negated { !truth } else { truth }),
        None => None,
    }
}

#[cycle(value)]
fn any_of(alloc: Global, parts: &[Expr], solution: &Solution) -> Result<Option<bool>, Memory>
    ensures { IfOk result (λ v. v ≡ spec.any_of (map spec.truth_of (map (λ e. spec.value e solution.now) parts.now))) }
{
    let mut unsure = false;
    for part in parts {
        match truth_on(alloc, part, solution)? {
            Some(true) => return Ok(Some(true)),
            Some(false) => {}
            None => unsure = true,
        }
    }
    if unsure { Ok(None) } else { Ok(Some(false)) }
}

#[cycle(value)]
fn all_of(alloc: Global, parts: &[Expr], solution: &Solution) -> Result<Option<bool>, Memory>
    ensures { IfOk result (λ v. v ≡ spec.all_of (map spec.truth_of (map (λ e. spec.value e solution.now) parts.now))) }
{
    let mut uncertain = false;
    for part in parts {
        match truth_on(alloc, part, solution)? {
            Some(false) => return Ok(Some(false)),
            Some(true) => {}
            None => uncertain = true,
        }
    }
    if uncertain { Ok(None) } else { Ok(Some(true)) }
}

#[cycle(value)]
fn among(
    alloc: Global,
    item: &Option<Term>,
    list: &[Expr],
    solution: &Solution,
) -> Result<Option<bool>, Memory>
    ensures { IfOk result (λ v. v ≡ spec.among item.now (map (λ e. spec.value e solution.now) list.now)) }
{
    let mut undecided = false;
    for part in list {
        let equal = both_equal(item, &value(alloc, part, solution)?);
        match equal {
            Some(true) => return Ok(Some(true)),
            Some(false) => {}
            None => undecided = true,
        }
    }
    if undecided { Ok(None) } else { Ok(Some(false)) }
}

#[cycle(value)]
fn sum(
    alloc: Global,
    first: Option<i64>,
    rest: &[(Sign, Expr)],
    solution: &Solution,
) -> Result<Option<i64>, Memory>
    ensures { IfOk result (λ v. v ≡ option_and_then (λ m. spec.sum_from m (map (λ p. (p.0, spec.value p.1 solution.now)) rest.now)) first) }
{
    let Some(first) = first else {
        return Ok(None);
    };
    let mut total = first;
    for (sign, part) in rest {
        let next = with_part(*sign, total, &value(alloc, part, solution)?);
        match next {
            Some(next) => total = next,
            None => return Ok(None),
        }
    }
    Ok(Some(total))
}

#[cycle(value)]
fn product(alloc: Global, parts: &[Expr], solution: &Solution) -> Result<Option<i64>, Memory>
    ensures { IfOk result (λ v. v ≡ spec.product (map (λ e. spec.value e solution.now) parts.now)) }
{
    let mut total = 1;
    for part in parts {
        let next = with_factor(total, &value(alloc, part, solution)?);
        match next {
            Some(next) => total = next,
            None => return Ok(None),
        }
    }
    Ok(Some(total))
}

#[cycle(value)]
fn call(
    alloc: Global,
    function: Function,
    args: &[Expr],
    solution: &Solution,
) -> Result<Option<Term>, Memory>
    ensures { IfOk result (λ v. v ≡ spec.call function (map (λ e. spec.value e solution.now) args.now)) }
{
    match function {
        Function::Bound => bound(alloc, args, solution),
        Function::Coalesce => first_of(alloc, args, solution),
        Function::If => chosen(alloc, args, solution),
        Function::Str => one(alloc, Function::Str, args, solution),
        Function::Lang => one(alloc, Function::Lang, args, solution),
        Function::Datatype => one(alloc, Function::Datatype, args, solution),
        Function::StrLen => one(alloc, Function::StrLen, args, solution),
        Function::IsIri => one(alloc, Function::IsIri, args, solution),
        Function::IsLiteral => one(alloc, Function::IsLiteral, args, solution),
        Function::IsBlank => one(alloc, Function::IsBlank, args, solution),
        Function::IsNumeric => one(alloc, Function::IsNumeric, args, solution),
        Function::LangMatches => two(alloc, Function::LangMatches, args, solution),
        Function::SameTerm => two(alloc, Function::SameTerm, args, solution),
        Function::Contains => two(alloc, Function::Contains, args, solution),
        Function::StrStarts => two(alloc, Function::StrStarts, args, solution),
        Function::StrEnds => two(alloc, Function::StrEnds, args, solution),
    }
}

#[cycle(value)]
fn bound(alloc: Global, args: &[Expr], solution: &Solution) -> Result<Option<Term>, Memory>
    ensures { IfOk result (λ v. v ≡ spec.bound (map (λ e. spec.value e solution.now) args.now)) }
{
    match args {
        [arg] => {
            let is_bound = value(alloc, arg, solution)?.is_some();
            truth_term(alloc, Some(is_bound))
        }
        _ => Ok(None),
    }
}

#[cycle(value)]
fn first_of(alloc: Global, args: &[Expr], solution: &Solution) -> Result<Option<Term>, Memory>
    ensures { IfOk result (λ v. v ≡ spec.first_of (map (λ e. spec.value e solution.now) args.now)) }
{
    for arg in args {
        if let Some(term) = value(alloc, arg, solution)? {
            return Ok(Some(term));
        }
    }
    Ok(None)
}

#[cycle(value)]
fn chosen(alloc: Global, args: &[Expr], solution: &Solution) -> Result<Option<Term>, Memory>
    ensures { IfOk result (λ v. v ≡ spec.chosen (map (λ e. spec.value e solution.now) args.now)) }
{
    match args {
        [test, yes, no] => match truth_on(alloc, test, solution)? {
            Some(true) => value(alloc, yes, solution),
            Some(false) => value(alloc, no, solution),
            None => Ok(None),
        },
        _ => Ok(None),
    }
}

#[cycle(value)]
fn one(
    alloc: Global,
    function: Function,
    args: &[Expr],
    solution: &Solution,
) -> Result<Option<Term>, Memory>
    ensures { IfOk result (λ v. v ≡ spec.one function (map (λ e. spec.value e solution.now) args.now)) }
{
    match args {
        [arg] => match value(alloc, arg, solution)? {
            Some(term) => of_one(alloc, function, &term),
            None => Ok(None),
        },
        _ => Ok(None),
    }
}

#[cycle(value)]
fn two(
    alloc: Global,
    function: Function,
    args: &[Expr],
    solution: &Solution,
) -> Result<Option<Term>, Memory>
    ensures { IfOk result (λ v. v ≡ spec.two function (map (λ e. spec.value e solution.now) args.now)) }
{
    match args {
        [first, second] => {
            let first = value(alloc, first, solution)?;
            tested_with(alloc, function, first, second, solution)
        }
        _ => Ok(None),
    }
}

// The value of a function of a value and a part.
#[cycle(value)]
fn tested_with(
    alloc: Global,
    function: Function,
    left: Option<Term>,
    right: &Expr,
    solution: &Solution,
) -> Result<Option<Term>, Memory>
    ensures { IfOk result (λ v. v ≡ option_map spec.boolean (spec.on_both (spec.of_two function) left (spec.value right.now solution.now))) }
{
    let truth = both_tested(function, &left, &value(alloc, right, solution)?);
    truth_term(alloc, truth)
}
