ghost use Rattle.std.specs.Prelude.{◌≡◌, ℕ, ◌/◌, ◌^◌, ◌<◌, ◌&&◌, [], ◌∷◌, map, length, decimal, nat_le, nat_lt, slice_index, slice_index_or};
ghost use Rattle.cursors.specs.Adds.{Adds};
ghost use Rattle.steps.specs.Kinds.{name_text};
ghost use Rattle.net.specs.Kinds.{number_of};
ghost use Rattle.listing.specs.Pieces.{Tagged, body, due, lead, mark as mark_of, paged, pieces};

use cursors::{Cursor, Put};
use itoa::Buffer;
use net::Kind;
use steps::Name;

// Puts a text where it is due.
fn put_due(cursor: &mut Cursor<'_, u8>, is_due: bool, text: &[u8])
    ensures { Adds cursor.old (due is_due text.now) cursor.new }
{
    if is_due {
        cursor.put_all(text);
    }
}

// Puts a space and the name of a step; no name where the step is not on the roster. By its bytes, for what is told below.
fn put_name(cursor: &mut Cursor<'_, u8>, names: &[Name], step: usize)
    ensures { Adds cursor.old (32 ∷ slice_index_or (map name_text names.now) step []) cursor.new }
{
    cursor.put(b' ');
    if let Some(name) = names.get(step) {
        cursor.put_all(name.text());
    }
}

// Puts a space and a number in base ten. By its digits, since `write!` promises the text only where it answers Ok, and not
// that it does.
fn put_number(cursor: &mut Cursor<'_, u8>, n: u32)
    ensures { Adds cursor.old (32 ∷ decimal n) cursor.new }
{
    let mut digits = Buffer::new();
    cursor.put(b' ');
    cursor.put_all(digits.format(n).as_bytes());
}

// Of the kind of the word before and that of this one here and below: a pair of them has no word of its own.

// What begins a place's line, its fed steps, a looping step's line, and the end.
fn mark(before: Kind, kind: Kind) -> &'static [u8]
    ensures { result.now ≡ mark_of (number_of before) (number_of kind) }
{
    match kind {
        Kind::Place => b"\nPLACE",
        Kind::Fed if before != Kind::Fed => b" >",
        Kind::Looping => b"\nLOOP",
        Kind::Count => b"\n",
        Kind::Seen | Kind::First | Kind::Last | Kind::Feeder | Kind::Fed => b"",
    }
}

// Whether a word of a kind, after one of the kind `before`, is the first of this kind or a later one.
fn begins(first: Kind, before: Kind, kind: Kind) -> bool
    ensures { result ≡ (nat_lt (number_of before) (number_of first) && nat_le (number_of first) (number_of kind)) }
{
    before < first && first <= kind
}

// Puts what stands ahead of a word of a kind, after a word of the kind `before`.
fn put_lead(cursor: &mut Cursor<'_, u8>, before: Kind, kind: Kind)
    ensures { Adds cursor.old (lead (number_of before) (number_of kind)) cursor.new }
{
    put_due(cursor, begins(Kind::First, before, kind), b"\nFIRST");
    put_due(cursor, begins(Kind::Last, before, kind), b"\nLAST");
    cursor.put_all(mark(before, kind));
}

// Puts the fields of a word of a kind, with the number x.
fn put_body(cursor: &mut Cursor<'_, u8>, names: &[Name], kind: Kind, x: u32)
    ensures { Adds cursor.old (body (map name_text names.now) (number_of kind) x) cursor.new }
{
    match kind {
        Kind::Place => put_number(cursor, x),
        Kind::Looping => {
            put_name(cursor, names, (x % 256) as usize);
            put_number(cursor, x / 256);
        }
        Kind::Count => {}
        Kind::Seen | Kind::First | Kind::Last | Kind::Feeder | Kind::Fed => {
            put_name(cursor, names, x as usize)
        }
    }
}

// The kind of a word of a net.
fn kind_of(word: u32) -> Kind
    requires { Tagged word }
    ensures { number_of result ≡ word / 2 ^ 28 }
{
    Kind::of(word).unwrap()
}

// The page of a net's words, by the names of its steps.
#[derive(Clone, Copy)]
pub(crate) struct Page<'a> {
    pub(crate) names: &'a [Name],
    pub(crate) words: &'a [u32],
    ghost tagged: { (k : ℕ) → k < length words.now → Tagged (slice_index words.now k) },
}

impl Page<'_> {
    // Puts the text of the words, the first of which comes after the title.
    fn put_words(&self, cursor: &mut Cursor<'_, u8>)
        ensures { Adds cursor.old (pieces (map name_text self.now.names.now) 1 self.now.words.now) cursor.new }
    {
        let mut before = Kind::Seen;
        for word in self.words {
            let kind = kind_of(*word);
            put_lead(cursor, before, kind);
            put_body(cursor, self.names, kind, *word % 0x1000_0000);
            before = kind;
        }
    }
}

// The bytes of the page.
impl Put<u8> for Page<'_> {
    ghost items = { λ page. paged page.names.now page.words.now };

    fn put_into(&self, cursor: &mut Cursor<'_, u8>) {
        cursor.put_all(b"STEPS");
        self.put_words(cursor);
    }
}
