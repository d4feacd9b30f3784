ghost use Rattle.std.specs.Prelude.{◌≡◌, ◌+◌, ◌<◌, ◌≤◌, min, false, length, drop, slice_index};
ghost use Rattle.steps.specs.Ranges.{name_byte};
ghost use Rattle.texts.specs.Tokens.{run, Read};

use crate::tokens::Token;
use steps::names::is_name_byte;

// A text, and how far it was read.
#[derive(Drop)]
pub struct Lexer<'a> {
    text: &'a [u8],
    at: usize,
    ghost ok: { at ≤ length text.now },
}

impl<'a> Lexer<'a> {
    // A lexer of a text from an offset on; an offset past the end is the end.
    pub fn new(text: &'a [u8], at: usize) -> Lexer<'a>
        ensures { (result.text.now ≡ text.now) × (result.at ≡ min at (length text.now)) }
    {
        Lexer {
            text,
            at: at.min(text.len()),
        }
    }

    // How far it has read.
    pub(crate) fn offset(&self) -> usize
        ensures { (result ≡ self.now.at) × (result ≤ length self.now.text.now) }
    {
        self.at
    }

    // How many name bytes stand next, up to 8.
    fn run_len(&self) -> usize
        ensures run { result ≡ run 8 (drop self.now.at self.now.text.now) }
        ensures within { self.now.at + result ≤ length self.now.text.now }
        ensures none { result ≡ 0 → self.now.at < length self.now.text.now → name_byte (slice_index self.now.text.now self.now.at) ≡ false }
    {
        self.text[self.at..]
            .iter()
            .take(8)
            .take_while(|b| is_name_byte(**b))
            .count()
    }

    // The next part of the text; it stays where no part of a trail stands, and at the end.
    pub fn token(&mut self) -> Token<'a>
        ensures read { Read self.old.text.now self.old.at self.new.at result }
        ensures text_unchanged { self.new.text.now ≡ self.old.text.now }
    {
        let at = self.at;
        let text = self.text;
        let n = self.run_len();
        if n > 0 {
            self.at = at + n;
            return Token::Name {
                at,
                bytes: &text[at..at + n],
            };
        }
        if at == text.len() {
            return Token::End { at };
        }
        match text[at] {
            b' ' => {
                self.at = at + 1;
                Token::Space { at }
            }
            b'\n' => {
                self.at = at + 1;
                Token::LineEnd { at }
            }
            _ => Token::Odd { at },
        }
    }
}
