//! Queries, made of their parts.
ghost use Rattle.std.specs.Prelude.{◌≡◌, ◌++◌, IfOk, OnOk, None, [], ◌∷◌};
ghost use Rattle.fx_grammar.specs.Grammar as grammar;

use fx_algebra::scopes::{once, scope};
use fx_algebra::{Expr, Form, Group, Inline, Order, Query};
use fx_grammar::{Head, Limits, Main};
use fx_terms::{Boxed, Items, Memory, Name};
use std::alloc::{AllocError, Global};

/// One more key, behind those that were there.
pub fn add_order(
    parts: &mut Items<Order>,
    descending: bool,
    expr: Boxed<Expr>,
) -> Result<(), AllocError>
    ensures { OnOk result (parts.new ≡ parts.old ++ grammar.ordered descending expr ∷ []) }
{
    let expr = expr.into_inner();
    parts.push(Order { descending, expr })
}

/// One key.
pub fn one_order(
    alloc: Global,
    descending: bool,
    expr: Boxed<Expr>,
) -> Result<Items<Order>, AllocError>
    ensures { IfOk result (λ parts. parts ≡ grammar.ordered descending expr ∷ []) }
{
    let mut parts = Items::new(alloc);
    add_order(&mut parts, descending, expr)?;
    Ok(parts)
}

/// The limits, or none.
pub fn limits_or(limits: Option<Limits>) -> Limits
    ensures { result ≡ grammar.limits_or limits }
{
    match limits {
        Some(limits) => limits,
        None => Limits {
            limit: None,
            offset: None,
        },
    }
}

fn push_names(names: &mut Vec<Name>, more: &[Name]) -> Result<(), Memory>
    ensures { OnOk result (names.new.items ≡ names.old.items ++ more.now) }
{
    for name in more {
        names.push(name.copy()?)?;
    }
    Ok(())
}

fn push_columns(names: &mut Vec<Name>, inline: &Option<Inline>) -> Result<(), Memory>
    ensures { OnOk result (names.new.items ≡ names.old.items ++ grammar.inline_columns inline.now) }
{
    match inline {
        Some(inline) => push_names(names, inline.columns.as_slice()),
        None => Ok(()),
    }
}

// All columns of a group, and of the VALUES behind the query.
fn all_columns(alloc: Global, group: &Group, inline: &Option<Inline>) -> Result<Items<Name>, Memory>
    ensures { IfOk result (λ names. names ≡ grammar.columns_of None group.now inline.now) }
{
    let mut names = scope(alloc, group)?;
    push_columns(&mut names, inline)?;
    Ok(Items::from_vec(once(alloc, names.as_slice())?))
}

fn form_of(
    alloc: Global,
    head: Head,
    group: &Group,
    inline: &Option<Inline>,
) -> Result<Form, Memory>
    ensures { IfOk result (λ form. form ≡ grammar.form_of head group.now inline.now) }
{
    match head {
        Head::Ask => Ok(Form::Ask),
        Head::Select { distinct, columns } => select_of(alloc, distinct, columns, group, inline),
    }
}

fn select_of(
    alloc: Global,
    distinct: bool,
    columns: Option<Items<Name>>,
    group: &Group,
    inline: &Option<Inline>,
) -> Result<Form, Memory>
    ensures { IfOk result (λ form. form ≡ Form.Select distinct (grammar.columns_of columns group.now inline.now)) }
{
    let columns = columns_of(alloc, columns, group, inline)?;
    Ok(Form::Select { distinct, columns })
}

fn columns_of(
    alloc: Global,
    columns: Option<Items<Name>>,
    group: &Group,
    inline: &Option<Inline>,
) -> Result<Items<Name>, Memory>
    ensures { IfOk result (λ names. names ≡ grammar.columns_of columns group.now inline.now) }
{
    match columns {
        None => all_columns(alloc, group, inline),
        Some(names) => Ok(Items::from_vec(once(alloc, names.as_slice())?)),
    }
}

/// The query of these parts.
pub fn query_of(
    alloc: Global,
    main: Boxed<Main>,
    inline: Option<Inline>,
) -> Result<Boxed<Query>, Memory>
    ensures { IfOk result (λ query. query ≡ grammar.query_of main inline) }
{
    let main = main.into_inner();
    let form = form_of(alloc, main.head, &main.group, &inline)?;
    Ok(Boxed::new(
        alloc,
        Query {
            form,
            group: main.group,
            order: main.modifiers.order,
            offset: main.modifiers.limits.offset.unwrap_or(0),
            limit: main.modifiers.limits.limit,
            inline,
        },
    )?)
}
