// Lines of words such as `(read 08000000 4)`: their words, their numbers, and lines made word by word.
#![tactic(auto)]

pub mod decimal;
mod forms;
mod hexadecimal;
mod output;
mod verbs;
mod words;

pub use forms::{Form, parse};
pub use hexadecimal::Hexadecimal;
pub use output::Line;
pub use verbs::Verb;
pub use words::Words;

#[cfg(test)]
mod tests;
