// A part of a text with its offset. A name token has 1 to 8 name bytes, as many as stand there up to 8.
#[derive(Clone, Copy)]
pub enum Token<'a> {
    Name { at: usize, bytes: &'a [u8] },
    Space { at: usize },
    LineEnd { at: usize },
    // a byte that is no part of any trail
    Odd { at: usize },
    // no byte is left
    End { at: usize },
}
