//! The forms of directives.

ghost use Rattle.std.specs.Prelude.{◌≡◌};
ghost use Rattle.tl_script.specs.Fields.{fields_of};
ghost use Rattle.tl_script.specs.Directive.{item_behind, item_in, kind_in, kind_of, vanish_in};
ghost use Rattle.tl_script.specs.Node.{node_in};

use crate::field::split_field;
use crate::line::is_text;
use crate::number::{digits_len, number_within};
use tl_base::NodeId;
use tl_isolation::{TurnItem, Vanish, VanishKind};

/// The node of these digits.
pub fn node_in(digits: &[u8]) -> Option<NodeId>
    ensures { result ≡ node_in digits.now }
{
    let number = number_within(digits, 1, 16)?;
    NodeId::new(u64::from(number))
}

/// The item of a schedule in a field: `n`, `n*k` or `n:s`.
#[tactic(auto, using(crate::proofs::Digits::digits), unfolding(crate::specs::Directive::item_in))]
pub fn item_in(field: &[u8]) -> Option<TurnItem>
    ensures { result ≡ item_in field.now }
{
    let (digits, rest) = field.split_at(digits_len(field));
    let node = node_in(digits)?;
    item_behind(node, rest)
}

fn item_behind(node: NodeId, rest: &[u8]) -> Option<TurnItem>
    ensures { result ≡ item_behind node rest.now }
{
    match rest {
        [] => Some(TurnItem::One { node, times: 1 }),
        [b'*', digits @ ..] => {
            let times = number_within(digits, 1, 100_000)?;
            Some(TurnItem::One { node, times })
        }
        [b':', digits @ ..] => {
            let statement = number_within(digits, 1, 1_000_000)?;
            Some(TurnItem::Until { node, statement })
        }
        _ => None,
    }
}

/// The vanishing in the fields behind `@vanish`: a node, a count, and a kind or none.
#[tactic(auto, unfolding(crate::specs::Directive::vanish_in))]
pub fn vanish_in(fields: &[u8]) -> Option<Vanish>
    ensures { result ≡ vanish_in (fields_of fields.now) }
{
    let (node, rest) = split_field(fields)?;
    let (count, rest) = split_field(rest)?;
    let node = node_in(node)?;
    let count = number_within(count, 1, 100_000)?;
    let kind = kind_in(rest)?;
    Some(Vanish { node, count, kind })
}

/// The kind in the last field; all requests count where there is none.
fn kind_in(fields: &[u8]) -> Option<VanishKind>
    ensures { result ≡ kind_in (fields_of fields.now) }
{
    let Some((word, rest)) = split_field(fields) else {
        return Some(VanishKind::Any);
    };
    if split_field(rest).is_some() {
        return None;
    }
    kind_of(word)
}

fn kind_of(word: &[u8]) -> Option<VanishKind>
    ensures { result ≡ kind_of word.now }
{
    if is_text(word, b"record") {
        Some(VanishKind::RecordStore)
    } else if is_text(word, b"flag") {
        Some(VanishKind::FlagStore)
    } else if is_text(word, b"leaf") {
        Some(VanishKind::LeafStore)
    } else if is_text(word, b"split") {
        Some(VanishKind::SplitStore)
    } else {
        None
    }
}
