//! Path queries: labels, path expressions as texts, and their answers over any graph; and the lexer of any query language.
#![tactic(auto)]

mod answers;
mod depth;
mod expr;
mod front;
mod grammar;
mod labels;
mod lexer;
mod marks;
mod parsing;
mod read_error;
mod token;
mod words;
mod writing;

pub use answers::{eval, eval_within};
pub use expr::{ExprError, PathExpr};
pub use labels::{name_len, read_label};
pub use lexer::{Lexeme, lex};
pub use parsing::is_past;
pub use path_expr::{Atom, Expr, Following, Item, Sep, Seq, Sign, compile_expr};
pub use read_error::ReadError;
pub use words::{skip_blanks, split_word, trim_end_blanks};
