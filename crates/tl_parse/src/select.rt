//! SELECT.

ghost use Rattle.std.specs.Prelude.{◌≡◌, [], ◌∷◌, false, None};
ghost use Rattle.tl_grammar.specs.Form.{either, pure, row, starts, some};
ghost use Rattle.tl_grammar.specs.Grammar.{aggregate, all_columns, all_rows, ascending, behind, column, comma, count, counted, descending, direction, greatest, group_by, in_brackets, items, least, limit, list, list_or_none, optional, order_by, order_column, order_item, order_number, select, select_form, select_item, shown_expr, some_items, sum};
ghost use Rattle.tl_grammar.specs.Pick.{printed_kind};
ghost use Rattle.tl_tokens.specs.Lexemes.{kind_of};
ghost use Rattle.tl_tokens.specs.Seen.{Reads, seen};

use crate::from::from_items;
use std::alloc::Global;
use tl_base::Items;
use tl_grammar::{
    ColumnName, Expected, OrderBy, OrderItem, SelectForm, SelectItem, Sign, Statement, Word,
};
use tl_terms::{MOST, column, expression, filter, is_column, is_expression};
use tl_tokens::{Cursor, Lexeme, LexemeKind, Stop, is_sign, is_word, number, sign, word};

#[tactic(auto, unfolding(tl_grammar::specs::Grammar::shown_expr))]
fn shown_expr<'a>(alloc: Global, at: Cursor<'a>) -> Result<(SelectForm, Cursor<'a>), Stop>
    ensures { Reads result ((shown_expr 64).read (seen at.entry)) }
{
    let (found, at) = expression(alloc, at, MOST)?;
    Ok((SelectForm::Expr(found), at))
}

#[tactic(auto, unfolding(tl_grammar::specs::Grammar::all_rows))]
fn all_rows<'a>(at: Cursor<'a>) -> Result<(SelectForm, Cursor<'a>), Stop>
    ensures { Reads result (all_rows.read (seen at.entry)) }
{
    let (_, at) = sign(Sign::Star, at)?;
    Ok((SelectForm::CountRows, at))
}

#[tactic(auto, unfolding(tl_grammar::specs::Grammar::counted))]
fn counted<'a>(alloc: Global, at: Cursor<'a>) -> Result<(SelectForm, Cursor<'a>), Stop>
    ensures { Reads result (counted.read (seen at.entry)) }
{
    let (found, at) = column(alloc, at)?;
    Ok((SelectForm::Count(found), at))
}

#[tactic(auto, unfolding(tl_grammar::specs::Grammar::all_rows))]
fn rows_or_column<'a>(alloc: Global, at: Cursor<'a>) -> Result<(SelectForm, Cursor<'a>), Stop>
    ensures { Reads result ((either all_rows counted).read (seen at.entry)) }
{
    if is_sign(Sign::Star, at) {
        return all_rows(at);
    }
    counted(alloc, at.missing(Expected::Sign))
}

#[tactic(auto, unfolding(tl_grammar::specs::Grammar::in_brackets))]
fn count_in_brackets<'a>(alloc: Global, at: Cursor<'a>) -> Result<(SelectForm, Cursor<'a>), Stop>
    ensures { Reads result ((in_brackets (either all_rows counted)).read (seen at.entry)) }
{
    let (_, at) = sign(Sign::Open, at)?;
    let (found, at) = rows_or_column(alloc, at)?;
    let (_, at) = sign(Sign::Close, at)?;
    Ok((found, at))
}

#[tactic(auto, unfolding(tl_grammar::specs::Grammar::count))]
fn count<'a>(alloc: Global, at: Cursor<'a>) -> Result<(SelectForm, Cursor<'a>), Stop>
    ensures { Reads result (count.read (seen at.entry)) }
{
    let (_, at) = word(Word::Count, at)?;
    let (found, at) = count_in_brackets(alloc, at)?;
    Ok((found, at))
}

#[tactic(auto, unfolding(tl_grammar::specs::Grammar::in_brackets))]
fn column_in_brackets<'a>(alloc: Global, at: Cursor<'a>) -> Result<(ColumnName, Cursor<'a>), Stop>
    ensures { Reads result ((in_brackets column).read (seen at.entry)) }
{
    let (_, at) = sign(Sign::Open, at)?;
    let (found, at) = column(alloc, at)?;
    let (_, at) = sign(Sign::Close, at)?;
    Ok((found, at))
}

#[tactic(auto, unfolding(tl_grammar::specs::Grammar::sum, tl_grammar::specs::Grammar::aggregate))]
fn sum<'a>(alloc: Global, at: Cursor<'a>) -> Result<(SelectForm, Cursor<'a>), Stop>
    ensures { Reads result (sum.read (seen at.entry)) }
{
    let (_, at) = word(Word::Sum, at)?;
    let (found, at) = column_in_brackets(alloc, at)?;
    Ok((SelectForm::Sum(found), at))
}

#[tactic(auto, unfolding(tl_grammar::specs::Grammar::least, tl_grammar::specs::Grammar::aggregate))]
fn least<'a>(alloc: Global, at: Cursor<'a>) -> Result<(SelectForm, Cursor<'a>), Stop>
    ensures { Reads result (least.read (seen at.entry)) }
{
    let (_, at) = word(Word::Min, at)?;
    let (found, at) = column_in_brackets(alloc, at)?;
    Ok((SelectForm::Min(found), at))
}

#[tactic(auto, unfolding(tl_grammar::specs::Grammar::greatest, tl_grammar::specs::Grammar::aggregate))]
fn greatest<'a>(alloc: Global, at: Cursor<'a>) -> Result<(SelectForm, Cursor<'a>), Stop>
    ensures { Reads result (greatest.read (seen at.entry)) }
{
    let (_, at) = word(Word::Max, at)?;
    let (found, at) = column_in_brackets(alloc, at)?;
    Ok((SelectForm::Max(found), at))
}

#[tactic(auto, unfolding(tl_grammar::specs::Grammar::least, tl_grammar::specs::Grammar::aggregate))]
fn least_or_greatest<'a>(alloc: Global, at: Cursor<'a>) -> Result<(SelectForm, Cursor<'a>), Stop>
    ensures { Reads result ((either least greatest).read (seen at.entry)) }
{
    if is_word(Word::Min, at) {
        return least(alloc, at);
    }
    greatest(alloc, at.missing(Expected::Word))
}

#[tactic(auto, unfolding(tl_grammar::specs::Grammar::sum, tl_grammar::specs::Grammar::aggregate))]
fn of_a_column<'a>(alloc: Global, at: Cursor<'a>) -> Result<(SelectForm, Cursor<'a>), Stop>
    ensures { Reads result ((either sum (either least greatest)).read (seen at.entry)) }
{
    if is_word(Word::Sum, at) {
        return sum(alloc, at);
    }
    least_or_greatest(alloc, at.missing(Expected::Word))
}

#[tactic(auto, unfolding(tl_grammar::specs::Grammar::count))]
fn of_rows<'a>(alloc: Global, at: Cursor<'a>) -> Result<(SelectForm, Cursor<'a>), Stop>
    ensures { Reads result ((either count (either sum (either least greatest))).read (seen at.entry)) }
{
    if is_word(Word::Count, at) {
        return count(alloc, at);
    }
    of_a_column(alloc, at.missing(Expected::Word))
}

#[tactic(auto, unfolding(tl_grammar::specs::Grammar::select_form, tl_grammar::specs::Grammar::shown_expr))]
fn select_form<'a>(alloc: Global, at: Cursor<'a>) -> Result<(SelectForm, Cursor<'a>), Stop>
    ensures { Reads result ((select_form 64).read (seen at.entry)) }
{
    if is_expression(at) {
        return shown_expr(alloc, at);
    }
    of_rows(alloc, at.missing(Expected::Name))
}

#[tactic(auto, unfolding(tl_grammar::specs::Grammar::select_item))]
fn select_item<'a>(alloc: Global, at: Cursor<'a>) -> Result<(SelectItem, Cursor<'a>), Stop>
    ensures { Reads result ((select_item 64).read (seen at.entry)) }
{
    let start = at.place();
    let (form, at) = select_form(alloc, at)?;
    Ok((SelectItem { at: start, form }, at))
}

#[tactic(auto, unfolding(tl_grammar::specs::Grammar::comma))]
fn comma_select_item<'a>(alloc: Global, at: Cursor<'a>) -> Result<(SelectItem, Cursor<'a>), Stop>
    ensures { Reads result ((comma (select_item 64)).read (seen at.entry)) }
{
    let (_, at) = sign(Sign::Comma, at)?;
    let (found, at) = select_item(alloc, at)?;
    Ok((found, at))
}

#[tactic(auto, unfolding(tl_grammar::specs::Grammar::comma))]
fn more_item_list<'a>(
    alloc: Global,
    first: SelectItem,
    at: Cursor<'a>,
) -> Result<(Items<SelectItem>, Cursor<'a>), Stop>
    ensures { Reads result ((row behind (comma (select_item 64)) (first ∷ [])).read (seen at.entry)) }
{
    let mut found = Items::new(alloc);
    found.push(first)?;
    let mut here = at;
    for i in 0..at.left() {
        if !is_sign(Sign::Comma, here) {
            return Ok((found, here.missing(Expected::Sign)));
        }
        let (next, after) = comma_select_item(alloc, here)?;
        found.push(next)?;
        here = after;
    }
    Ok((found, here.missing(Expected::Sign)))
}

#[tactic(auto, unfolding(tl_grammar::specs::Grammar::list))]
fn item_list<'a>(alloc: Global, at: Cursor<'a>) -> Result<(Items<SelectItem>, Cursor<'a>), Stop>
    ensures { Reads result ((list (select_item 64)).read (seen at.entry)) }
{
    let (first, at) = select_item(alloc, at)?;
    let (found, at) = more_item_list(alloc, first, at)?;
    Ok((found, at))
}

#[tactic(auto, unfolding(tl_grammar::specs::Grammar::all_columns))]
fn all_columns<'a>(at: Cursor<'a>) -> Result<(Option<Items<SelectItem>>, Cursor<'a>), Stop>
    ensures { Reads result (all_columns.read (seen at.entry)) }
{
    let (_, at) = sign(Sign::Star, at)?;
    Ok((None, at))
}

#[tactic(auto, unfolding(tl_grammar::specs::Grammar::some_items))]
fn some_items<'a>(
    alloc: Global,
    at: Cursor<'a>,
) -> Result<(Option<Items<SelectItem>>, Cursor<'a>), Stop>
    ensures { Reads result ((some_items 64).read (seen at.entry)) }
{
    let (found, at) = item_list(alloc, at)?;
    Ok((Some(found), at))
}

#[tactic(auto, unfolding(tl_grammar::specs::Grammar::items, tl_grammar::specs::Grammar::all_columns))]
fn items<'a>(alloc: Global, at: Cursor<'a>) -> Result<(Option<Items<SelectItem>>, Cursor<'a>), Stop>
    ensures { Reads result ((items 64).read (seen at.entry)) }
{
    if is_sign(Sign::Star, at) {
        return all_columns(at);
    }
    some_items(alloc, at.missing(Expected::Sign))
}

#[tactic(auto, unfolding(tl_grammar::specs::Grammar::comma))]
fn comma_column<'a>(alloc: Global, at: Cursor<'a>) -> Result<(ColumnName, Cursor<'a>), Stop>
    ensures { Reads result ((comma column).read (seen at.entry)) }
{
    let (_, at) = sign(Sign::Comma, at)?;
    let (found, at) = column(alloc, at)?;
    Ok((found, at))
}

#[tactic(auto, unfolding(tl_grammar::specs::Grammar::comma))]
fn more_columns<'a>(
    alloc: Global,
    first: ColumnName,
    at: Cursor<'a>,
) -> Result<(Items<ColumnName>, Cursor<'a>), Stop>
    ensures { Reads result ((row behind (comma column) (first ∷ [])).read (seen at.entry)) }
{
    let mut found = Items::new(alloc);
    found.push(first)?;
    let mut here = at;
    for i in 0..at.left() {
        if !is_sign(Sign::Comma, here) {
            return Ok((found, here.missing(Expected::Sign)));
        }
        let (next, after) = comma_column(alloc, here)?;
        found.push(next)?;
        here = after;
    }
    Ok((found, here.missing(Expected::Sign)))
}

#[tactic(auto, unfolding(tl_grammar::specs::Grammar::list))]
fn columns<'a>(alloc: Global, at: Cursor<'a>) -> Result<(Items<ColumnName>, Cursor<'a>), Stop>
    ensures { Reads result ((list column).read (seen at.entry)) }
{
    let (first, at) = column(alloc, at)?;
    let (found, at) = more_columns(alloc, first, at)?;
    Ok((found, at))
}

#[tactic(auto, unfolding(tl_grammar::specs::Grammar::group_by))]
fn group_by<'a>(alloc: Global, at: Cursor<'a>) -> Result<(Items<ColumnName>, Cursor<'a>), Stop>
    ensures { Reads result (group_by.read (seen at.entry)) }
{
    let (_, at) = word(Word::Group, at)?;
    let (_, at) = word(Word::By, at)?;
    let (found, at) = columns(alloc, at)?;
    Ok((found, at))
}

#[tactic(auto, unfolding(tl_grammar::specs::Grammar::list_or_none, tl_grammar::specs::Grammar::group_by))]
fn group<'a>(alloc: Global, at: Cursor<'a>) -> Result<(Items<ColumnName>, Cursor<'a>), Stop>
    ensures { Reads result ((list_or_none group_by).read (seen at.entry)) }
{
    if is_word(Word::Group, at) {
        return group_by(alloc, at);
    }
    Ok((Items::new(alloc), at.missing(Expected::Word)))
}

#[tactic(auto, unfolding(tl_grammar::specs::Grammar::order_column))]
fn order_column<'a>(alloc: Global, at: Cursor<'a>) -> Result<(OrderBy, Cursor<'a>), Stop>
    ensures { Reads result (order_column.read (seen at.entry)) }
{
    let (found, at) = column(alloc, at)?;
    Ok((OrderBy::Column(found), at))
}

fn printed_of(token: Lexeme<'_>) -> Option<OrderBy>
    ensures { result ≡ printed_kind token.entry.start (kind_of token.entry.kind) }
{
    match token.kind {
        LexemeKind::Number(number) => Some(OrderBy::Number {
            at: token.start,
            number,
        }),
        _ => None,
    }
}

#[tactic(auto, unfolding(tl_grammar::specs::Grammar::order_number))]
fn order_number<'a>(at: Cursor<'a>) -> Result<(OrderBy, Cursor<'a>), Stop>
    ensures { Reads result (order_number.read (seen at.entry)) }
{
    match at.rest {
        [token, rest @ ..] => match printed_of(*token) {
            Some(found) => Ok((found, Cursor { wanted: None, rest })),
            None => Err(at.refused(Expected::Number)),
        },
        [] => Err(at.refused(Expected::Number)),
    }
}

#[tactic(auto, unfolding(tl_grammar::specs::Grammar::order_column))]
fn sorted_by<'a>(alloc: Global, at: Cursor<'a>) -> Result<(OrderBy, Cursor<'a>), Stop>
    ensures { Reads result ((either order_column order_number).read (seen at.entry)) }
{
    if is_column(at) {
        return order_column(alloc, at);
    }
    order_number(at.missing(Expected::Name))
}

#[tactic(auto, unfolding(tl_grammar::specs::Grammar::ascending))]
fn ascending<'a>(at: Cursor<'a>) -> Result<(bool, Cursor<'a>), Stop>
    ensures { Reads result (ascending.read (seen at.entry)) }
{
    let (_, at) = word(Word::Asc, at)?;
    Ok((false, at))
}

#[tactic(auto, unfolding(tl_grammar::specs::Grammar::descending))]
fn descending<'a>(at: Cursor<'a>) -> Result<(bool, Cursor<'a>), Stop>
    ensures { Reads result (descending.read (seen at.entry)) }
{
    let (_, at) = word(Word::Desc, at)?;
    Ok((true, at))
}

#[tactic(auto, unfolding(tl_grammar::specs::Grammar::descending))]
fn descending_or_not<'a>(at: Cursor<'a>) -> Result<(bool, Cursor<'a>), Stop>
    ensures { Reads result ((either descending (pure false)).read (seen at.entry)) }
{
    if is_word(Word::Desc, at) {
        return descending(at);
    }
    Ok((false, at.missing(Expected::Word)))
}

#[tactic(auto, unfolding(tl_grammar::specs::Grammar::direction, tl_grammar::specs::Grammar::ascending))]
fn direction<'a>(at: Cursor<'a>) -> Result<(bool, Cursor<'a>), Stop>
    ensures { Reads result (direction.read (seen at.entry)) }
{
    if is_word(Word::Asc, at) {
        return ascending(at);
    }
    descending_or_not(at.missing(Expected::Word))
}

#[tactic(auto, unfolding(tl_grammar::specs::Grammar::order_item))]
fn order_item<'a>(alloc: Global, at: Cursor<'a>) -> Result<(OrderItem, Cursor<'a>), Stop>
    ensures { Reads result (order_item.read (seen at.entry)) }
{
    let (by, at) = sorted_by(alloc, at)?;
    let (descending, at) = direction(at)?;
    Ok((OrderItem { by, descending }, at))
}

#[tactic(auto, unfolding(tl_grammar::specs::Grammar::comma))]
fn comma_order_item<'a>(alloc: Global, at: Cursor<'a>) -> Result<(OrderItem, Cursor<'a>), Stop>
    ensures { Reads result ((comma order_item).read (seen at.entry)) }
{
    let (_, at) = sign(Sign::Comma, at)?;
    let (found, at) = order_item(alloc, at)?;
    Ok((found, at))
}

#[tactic(auto, unfolding(tl_grammar::specs::Grammar::comma))]
fn more_order_items<'a>(
    alloc: Global,
    first: OrderItem,
    at: Cursor<'a>,
) -> Result<(Items<OrderItem>, Cursor<'a>), Stop>
    ensures { Reads result ((row behind (comma order_item) (first ∷ [])).read (seen at.entry)) }
{
    let mut found = Items::new(alloc);
    found.push(first)?;
    let mut here = at;
    for i in 0..at.left() {
        if !is_sign(Sign::Comma, here) {
            return Ok((found, here.missing(Expected::Sign)));
        }
        let (next, after) = comma_order_item(alloc, here)?;
        found.push(next)?;
        here = after;
    }
    Ok((found, here.missing(Expected::Sign)))
}

#[tactic(auto, unfolding(tl_grammar::specs::Grammar::list))]
fn order_items<'a>(alloc: Global, at: Cursor<'a>) -> Result<(Items<OrderItem>, Cursor<'a>), Stop>
    ensures { Reads result ((list order_item).read (seen at.entry)) }
{
    let (first, at) = order_item(alloc, at)?;
    let (found, at) = more_order_items(alloc, first, at)?;
    Ok((found, at))
}

#[tactic(auto, unfolding(tl_grammar::specs::Grammar::order_by))]
fn order_by<'a>(alloc: Global, at: Cursor<'a>) -> Result<(Items<OrderItem>, Cursor<'a>), Stop>
    ensures { Reads result (order_by.read (seen at.entry)) }
{
    let (_, at) = word(Word::Order, at)?;
    let (_, at) = word(Word::By, at)?;
    let (found, at) = order_items(alloc, at)?;
    Ok((found, at))
}

#[tactic(auto, unfolding(tl_grammar::specs::Grammar::list_or_none, tl_grammar::specs::Grammar::order_by))]
fn order<'a>(alloc: Global, at: Cursor<'a>) -> Result<(Items<OrderItem>, Cursor<'a>), Stop>
    ensures { Reads result ((list_or_none order_by).read (seen at.entry)) }
{
    if is_word(Word::Order, at) {
        return order_by(alloc, at);
    }
    Ok((Items::new(alloc), at.missing(Expected::Word)))
}

#[tactic(auto, unfolding(tl_grammar::specs::Grammar::limit))]
fn limit<'a>(at: Cursor<'a>) -> Result<(u64, Cursor<'a>), Stop>
    ensures { Reads result (limit.read (seen at.entry)) }
{
    let (_, at) = word(Word::Limit, at)?;
    let (found, at) = number(at)?;
    Ok((found, at))
}

#[tactic(auto, unfolding(tl_grammar::specs::Grammar::optional, tl_grammar::specs::Grammar::limit))]
fn limited<'a>(at: Cursor<'a>) -> Result<(Option<u64>, Cursor<'a>), Stop>
    ensures { Reads result ((optional limit).read (seen at.entry)) }
{
    if is_word(Word::Limit, at) {
        let (found, at) = limit(at)?;
        return Ok((Some(found), at));
    }
    Ok((None, at.missing(Expected::Word)))
}

#[tactic(auto, unfolding(tl_grammar::specs::Grammar::select))]
pub fn select<'a>(alloc: Global, at: Cursor<'a>) -> Result<(Statement, Cursor<'a>), Stop>
    ensures { Reads result ((select 64).read (seen at.entry)) }
{
    let (_, at) = word(Word::Select, at)?;
    let (items, at) = items(alloc, at)?;
    let (_, at) = word(Word::From, at)?;
    let (from, at) = from_items(alloc, at)?;
    let (filter, at) = filter(alloc, at)?;
    let (group, at) = group(alloc, at)?;
    let (order, at) = order(alloc, at)?;
    let (limit, at) = limited(at)?;
    let found = Statement::Select {
        items,
        from,
        filter,
        group,
        order,
        limit,
    };
    Ok((found, at))
}
