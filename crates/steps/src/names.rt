ghost use Rattle.std.specs.Prelude.{◌≡◌, ◌-◌, ◌≤◌, true, length, take, drop, replicate, Some, MatchOption};
ghost use Rattle.steps.specs.Ranges.{IsName, name_byte, name_bytes};

use std::{fmt, str};

// A step as later cards write it: 1 to 8 bytes of A to Z, 0 to 9 and underscore. The bytes past the text are 0, in fixed
// memory, so that a name is plain data.
#[derive(Clone, Copy, PartialEq, Eq, Debug)]
pub struct Name {
    bytes: [u8; 8],
    len: u8,
    ghost lawful: { (length bytes ≡ 8) × (len ≤ 8) × IsName (take len bytes) × (drop len bytes ≡ replicate (8 - len) 0) },
}

// Whether a byte may stand in a name.
pub fn is_name_byte(b: u8) -> bool
    ensures { result ≡ name_byte b }
{
    // Apart, since one `matches!` of all three takes half as long again on a text of names.
    matches!(b, b'A'..=b'Z') || matches!(b, b'0'..=b'9') || b == b'_'
}

fn all_name_bytes(text: &[u8]) -> bool
    ensures { result ≡ name_bytes text.now }
{
    text.iter().all(|b| is_name_byte(*b))
}

// The text, then zeros.
fn padded(text: &[u8]) -> [u8; 8]
    requires { length text.now ≤ 8 }
    ensures front { take (length text.now) result ≡ text.now }
    ensures rest { drop (length text.now) result ≡ replicate (8 - length text.now) 0 }
    ensures len { length result ≡ 8 }
{
    let mut bytes = [0; 8];
    bytes[..text.len()].copy_from_slice(text);
    bytes
}

impl Name {
    // The name with this text, or none where the text is not a name's.
    pub fn new(text: &[u8]) -> Option<Name>
        ensures { MatchOption result (IsName text.now → ⊥) (λ n. take n.len n.bytes ≡ text.now) }
    {
        if text.is_empty() || text.len() > 8 || !all_name_bytes(text) {
            return None;
        }
        let len = text.len() as u8;
        Some(Name {
            bytes: padded(text),
            len,
        })
    }

    // The bytes of the name.
    pub fn text(&self) -> &[u8]
        ensures { (result.now ≡ take self.now.len self.now.bytes) × (IsName result.now) }
    {
        &self.bytes[0..self.len as usize]
    }
}

// The text of the name.
impl fmt::Display for Name {
    ghost output = { λ n. Some (take n.len n.bytes) };

    fn fmt<W: fmt::Write>(&self, f: &mut fmt::Formatter<W>) -> fmt::Result {
        f.write_str(str::from_utf8(self.text()).map_err(|_| fmt::Error)?)
    }
}
