// The lines of a bench on which a part stands: what each line asks for, as `(in 5A)`, and what it is answered with, as `(taken)`.
#![tactic(auto)]

mod form;
mod parser;
mod said;
mod sayings;

pub use form::Form;
pub use parser::parse;
pub use said::Said;
pub use sayings::{out_line, said_line};
