// The forms of the frame tool, as `(read 08000000 4)`: what each asks for, and the line that answers it.
#![tactic(auto)]

mod form;
mod parser;
mod replies;

pub use form::{Form, Order};
pub use parser::parse;
pub use replies::{answer_line, reply};

#[cfg(test)]
mod tests;
