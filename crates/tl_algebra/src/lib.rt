//! What a SELECT means: the bound forms of conditions, expressions, queries and changes, and what they come to on
//! rows.
#![tactic(auto)]

mod aggregate;
mod condition;
mod copy;
mod edit;
mod expression;
mod fault;
mod group;
mod laws;
mod line;
mod product;
mod query;
mod rank;
mod row;
mod select;
mod truth;
mod value;

pub use condition::{Condition, Side};
pub use edit::{Edit, SetColumn};
pub use expression::{Expression, Operator, Step};
pub use fault::ValueFault;
pub use laws::{select_has_one_answer, select_knows_no_order};
pub use line::{Line, line_of, lines_of};
pub use product::passes;
pub use query::{Join, Output, Query, Sort, SortBy};
pub use rank::print_lines;
pub use select::rows_of;
pub use truth::{lets_through, truth_of};
pub use value::value_of;
