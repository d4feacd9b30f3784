// The text trail: names in text, one job a line.
#![tactic(auto)]

mod judging;
pub mod lexers;
pub mod lines;
pub mod tokens;
pub mod trail;
pub mod verdicts;

pub use lexers::Lexer;
pub use tokens::Token;
pub use trail::TextTrail;
