//! Queries (SPARQL 1.1 sections 5 to 16), as trees.
ghost use Rattle.std.specs.Prelude.{◌≡◌, IfOk};

use crate::expressions::Expr;
use fx_terms::{Iri, Items, Memory, Name, Pattern, Term};
use std::alloc::Global;

/// A block of solutions written out (section 10.2): each row is as wide as the columns, and `None` stands for UNDEF.
#[derive(Drop)]
pub struct Inline {
    pub columns: Items<Name>,
    pub rows: Items<Items<Option<Term>>>,
}

/// A group of elements between braces (section 5.2), in text order.
#[cycle(algebra)]
#[derive(Drop)]
pub struct Group {
    pub elements: Items<Element>,
}

/// An element of a group.
#[cycle(algebra)]
#[derive(Drop)]
pub enum Element {
    Triple(Pattern),
    Filter(Expr),
    Optional(Group),
    /// The alternatives; a group that stands in a group is a union of one.
    Union(Items<Group>),
    Minus(Group),
    Bind {
        expr: Expr,
        name: Name,
    },
    Values(Inline),
    /// A part that another endpoint is asked for (SPARQL 1.1 Federated Query).
    Service {
        silent: bool,
        iri: Iri,
        group: Group,
    },
}

/// What a query answers.
#[derive(Drop)]
pub enum Form {
    /// A table of these columns, each named once.
    Select {
        distinct: bool,
        columns: Items<Name>,
    },
    /// Whether there is a solution.
    Ask,
}

/// A key of ORDER BY (section 15.1).
#[derive(Drop)]
pub struct Order {
    pub descending: bool,
    pub expr: Expr,
}

/// A query.
pub struct Query {
    pub form: Form,
    pub group: Group,
    pub order: Items<Order>,
    /// How many rows are dropped in front.
    pub offset: u64,
    /// How many rows are kept at most.
    pub limit: Option<u64>,
    /// The VALUES that stands behind the query.
    pub inline: Option<Inline>,
}

// By hand, so that what drops a tree is proved here once, and not in each crate that drops a query.
impl Drop for Query {
    fn drop(self) {
        let Query {
            form: _form,
            group: _group,
            order: _order,
            offset: _,
            limit: _,
            inline: _inline,
        } = self;
    }
}

impl Inline {
    /// An equal block, which shares the texts.
    pub fn copy(&self, alloc: Global) -> Result<Inline, Memory>
        ensures { IfOk result (λ copy. copy ≡ self.now) }
    {
        Ok(Inline {
            columns: copy_names(alloc, self.columns.as_slice())?,
            rows: copy_rows(alloc, self.rows.as_slice())?,
        })
    }
}

impl Group {
    /// An equal group, which shares the texts.
    #[cycle(copy)]
    pub fn copy(&self, alloc: Global) -> Result<Group, Memory>
        ensures { IfOk result (λ copy. copy ≡ self.now) }
    {
        Ok(Group {
            elements: copy_elements(alloc, self.elements.as_slice())?,
        })
    }
}

impl Element {
    /// An equal element, which shares the texts.
    #[cycle(copy)]
    pub fn copy(&self, alloc: Global) -> Result<Element, Memory>
        ensures { IfOk result (λ copy. copy ≡ self.now) }
    {
        match self {
            Element::Triple(pattern) => copy_triple(pattern),
            Element::Filter(expr) => copy_filter(alloc, expr),
            Element::Optional(group) => Ok(Element::Optional(group.copy(alloc)?)),
            Element::Union(groups) => Ok(Element::Union(copy_groups(alloc, groups.as_slice())?)),
            Element::Minus(group) => Ok(Element::Minus(group.copy(alloc)?)),
            Element::Bind { expr, name } => copy_bind(alloc, expr, name),
            Element::Values(inline) => copy_values(alloc, inline),
            Element::Service { silent, iri, group } => Ok(Element::Service {
                silent: *silent,
                iri: iri.copy()?,
                group: group.copy(alloc)?,
            }),
        }
    }
}

impl Form {
    /// An equal form, which shares the texts.
    pub fn copy(&self, alloc: Global) -> Result<Form, Memory>
        ensures { IfOk result (λ copy. copy ≡ self.now) }
    {
        match self {
            Form::Select { distinct, columns } => Ok(Form::Select {
                distinct: *distinct,
                columns: copy_names(alloc, columns.as_slice())?,
            }),
            Form::Ask => Ok(Form::Ask),
        }
    }
}

impl Order {
    /// An equal key, which shares the texts.
    pub fn copy(&self, alloc: Global) -> Result<Order, Memory>
        ensures { IfOk result (λ copy. copy ≡ self.now) }
    {
        Ok(Order {
            descending: self.descending,
            expr: self.expr.copy(alloc)?,
        })
    }
}

impl Query {
    /// An equal query, which shares the texts.
    pub fn copy(&self, alloc: Global) -> Result<Query, Memory>
        ensures { IfOk result (λ copy. copy ≡ self.now) }
    {
        Ok(Query {
            form: self.form.copy(alloc)?,
            group: self.group.copy(alloc)?,
            order: copy_keys(alloc, self.order.as_slice())?,
            offset: self.offset,
            limit: self.limit,
            inline: copy_inline(alloc, &self.inline)?,
        })
    }
}

/// An equal list of names, which shares the texts.
pub fn copy_names(alloc: Global, names: &[Name]) -> Result<Items<Name>, Memory>
    ensures { IfOk result (λ copies. copies ≡ names.now) }
{
    let mut copies = Items::new(alloc);
    for name in names {
        copies.push(name.copy()?)?;
    }
    Ok(copies)
}

fn copy_value(value: &Option<Term>) -> Result<Option<Term>, Memory>
    ensures { IfOk result (λ copy. copy ≡ value.now) }
{
    match value {
        Some(term) => Ok(Some(term.copy()?)),
        None => Ok(None),
    }
}

fn copy_row(alloc: Global, row: &[Option<Term>]) -> Result<Items<Option<Term>>, Memory>
    ensures { IfOk result (λ copies. copies ≡ row.now) }
{
    let mut copies = Items::new(alloc);
    for value in row {
        copies.push(copy_value(value)?)?;
    }
    Ok(copies)
}

fn copy_rows(
    alloc: Global,
    rows: &[Items<Option<Term>>],
) -> Result<Items<Items<Option<Term>>>, Memory>
    ensures { IfOk result (λ copies. copies ≡ rows.now) }
{
    let mut copies = Items::new(alloc);
    for row in rows {
        copies.push(copy_row(alloc, row.as_slice())?)?;
    }
    Ok(copies)
}

fn copy_inline(alloc: Global, inline: &Option<Inline>) -> Result<Option<Inline>, Memory>
    ensures { IfOk result (λ copy. copy ≡ inline.now) }
{
    match inline {
        Some(block) => Ok(Some(block.copy(alloc)?)),
        None => Ok(None),
    }
}

fn copy_keys(alloc: Global, keys: &[Order]) -> Result<Items<Order>, Memory>
    ensures { IfOk result (λ copies. copies ≡ keys.now) }
{
    let mut copies = Items::new(alloc);
    for key in keys {
        copies.push(key.copy(alloc)?)?;
    }
    Ok(copies)
}

fn copy_triple(pattern: &Pattern) -> Result<Element, Memory>
    ensures { IfOk result (λ copy. copy ≡ Element.Triple pattern.now) }
{
    Ok(Element::Triple(pattern.copy()?))
}

fn copy_filter(alloc: Global, expr: &Expr) -> Result<Element, Memory>
    ensures { IfOk result (λ copy. copy ≡ Element.Filter expr.now) }
{
    Ok(Element::Filter(expr.copy(alloc)?))
}

fn copy_bind(alloc: Global, expr: &Expr, name: &Name) -> Result<Element, Memory>
    ensures { IfOk result (λ copy. copy ≡ Element.Bind expr.now name.now) }
{
    let name = name.copy()?;
    Ok(Element::Bind {
        expr: expr.copy(alloc)?,
        name,
    })
}

fn copy_values(alloc: Global, inline: &Inline) -> Result<Element, Memory>
    ensures { IfOk result (λ copy. copy ≡ Element.Values inline.now) }
{
    Ok(Element::Values(inline.copy(alloc)?))
}

#[cycle(copy)]
fn copy_elements(alloc: Global, elements: &[Element]) -> Result<Items<Element>, Memory>
    ensures { IfOk result (λ copies. copies ≡ elements.now) }
{
    let mut copies = Items::new(alloc);
    for element in elements {
        copies.push(element.copy(alloc)?)?;
    }
    Ok(copies)
}

#[cycle(copy)]
fn copy_groups(alloc: Global, groups: &[Group]) -> Result<Items<Group>, Memory>
    ensures { IfOk result (λ copies. copies ≡ groups.now) }
{
    let mut copies = Items::new(alloc);
    for group in groups {
        copies.push(group.copy(alloc)?)?;
    }
    Ok(copies)
}
