//! The forms of directives.

ghost use Rattle.std.specs.Prelude.{◌≡◌, IfOk};
ghost use Rattle.std.specs.Str.{bytes_eq};
ghost use Rattle.tl_lines.specs.Fields.{fields_of};
ghost use Rattle.tl_lines.specs.Directive.{directive_in, item_behind, item_in, items_in, kind_in, kind_of, node_alone, turns_in, vanish_in};

use crate::field::split_field;
use crate::number::{digits_len, node_in, number_within};
use std::alloc::Global;
use tl_base::{Items, NoMemory, NodeId};
use tl_isolation::{TurnItem, Vanish, VanishKind};

/// A line of a script that is no statement.
#[derive(Drop)]
pub enum Directive {
    /// The node whose statements come.
    Node(NodeId),
    /// Items of the schedule, one or more.
    Turns(Items<TurnItem>),
    /// A node that vanishes.
    Vanish(Vanish),
}

/// The directive of a line, by its first field; `None` where it is of no directive's form.
#[tactic(auto, unfolding(crate::specs::Directive::directive_in))]
pub fn directive_in(alloc: Global, line: &[u8]) -> Result<Option<Directive>, NoMemory>
    ensures { IfOk result (λ found. found ≡ directive_in line.now) }
{
    let Some((head, fields)) = split_field(line) else {
        return Ok(None);
    };
    if is_text(head, b"@node") {
        Ok(node_alone(fields).map(Directive::Node))
    } else if is_text(head, b"@turns") {
        Ok(turns_in(alloc, fields)?.map(Directive::Turns))
    } else if is_text(head, b"@vanish") {
        Ok(vanish_in(fields).map(Directive::Vanish))
    } else {
        Ok(None)
    }
}

/// Whether the bytes are this text.
fn is_text(bytes: &[u8], text: &[u8]) -> bool
    ensures { result ≡ bytes_eq bytes.now text.now }
{
    bytes == text
}

/// The node of the one field.
fn node_alone(fields: &[u8]) -> Option<NodeId>
    ensures { result ≡ node_alone (fields_of fields.now) }
{
    let (digits, rest) = split_field(fields)?;
    match split_field(rest) {
        Some(_) => None,
        None => node_in(digits),
    }
}

/// The items in the fields; `None` where there is no field, or one that is no item.
fn turns_in(alloc: Global, fields: &[u8]) -> Result<Option<Items<TurnItem>>, NoMemory>
    ensures { IfOk result (λ found. found ≡ turns_in (fields_of fields.now)) }
{
    if split_field(fields).is_none() {
        return Ok(None);
    }
    items_in(alloc, fields)
}

fn items_in(alloc: Global, fields: &[u8]) -> Result<Option<Items<TurnItem>>, NoMemory>
    ensures { IfOk result (λ found. found ≡ items_in (fields_of fields.now)) }
{
    let mut items = Items::new(alloc);
    let mut rest = fields;
    while let Some((field, after)) = split_field(rest) {
        let Some(item) = item_in(field) else {
            return Ok(None);
        };
        items.push(item)?;
        rest = after;
    }
    Ok(Some(items))
}

/// The item of a schedule in a field: `n`, `n*k` or `n:s`.
#[tactic(auto, using(crate::proofs::Digits::digits), unfolding(crate::specs::Directive::item_in))]
pub fn item_in(field: &[u8]) -> Option<TurnItem>
    ensures { result ≡ item_in field.now }
{
    let (digits, rest) = field.split_at(digits_len(field));
    let node = node_in(digits)?;
    item_behind(node, rest)
}

fn item_behind(node: NodeId, rest: &[u8]) -> Option<TurnItem>
    ensures { result ≡ item_behind node rest.now }
{
    match rest {
        [] => Some(TurnItem::One { node, times: 1 }),
        [b'*', digits @ ..] => {
            let times = number_within(digits, 1, 100_000)?;
            Some(TurnItem::One { node, times })
        }
        [b':', digits @ ..] => {
            let statement = number_within(digits, 1, 1_000_000)?;
            Some(TurnItem::Until { node, statement })
        }
        _ => None,
    }
}

/// The vanishing in the fields behind `@vanish`: a node, a count, and a kind or none.
#[tactic(auto, unfolding(crate::specs::Directive::vanish_in))]
pub fn vanish_in(fields: &[u8]) -> Option<Vanish>
    ensures { result ≡ vanish_in (fields_of fields.now) }
{
    let (node, rest) = split_field(fields)?;
    let (count, rest) = split_field(rest)?;
    let node = node_in(node)?;
    let count = number_within(count, 1, 100_000)?;
    let kind = kind_in(rest)?;
    Some(Vanish { node, count, kind })
}

/// The kind in the last field; all requests count where there is none.
fn kind_in(fields: &[u8]) -> Option<VanishKind>
    ensures { result ≡ kind_in (fields_of fields.now) }
{
    let Some((word, rest)) = split_field(fields) else {
        return Some(VanishKind::Any);
    };
    if split_field(rest).is_some() {
        return None;
    }
    kind_of(word)
}

fn kind_of(word: &[u8]) -> Option<VanishKind>
    ensures { result ≡ kind_of word.now }
{
    if is_text(word, b"record") {
        Some(VanishKind::RecordStore)
    } else if is_text(word, b"flag") {
        Some(VanishKind::FlagStore)
    } else if is_text(word, b"leaf") {
        Some(VanishKind::LeafStore)
    } else if is_text(word, b"split") {
        Some(VanishKind::SplitStore)
    } else {
        None
    }
}
