// Items that are put one after the other into lent memory.
#![tactic(auto)]

ghost use Rattle.std.specs.Prelude.{◌++◌};

pub mod cursor;
pub mod putting;

pub use cursor::Cursor;
pub use putting::{Put, write};

#[cfg(test)]
mod tests {
    use crate::{Cursor, Put, write};

    // A text, and the same text again.
    struct Twice<'a> {
        text: &'a [u8],
    }

    impl Put<u8> for Twice<'_> {
        ghost items = { λ it. it.text.now ++ it.text.now };

        fn put_into(&self, cursor: &mut Cursor<'_, u8>) {
            cursor.put_all(self.text);
            cursor.put_all(self.text);
        }
    }

    #[test]
    fn items_that_fit_and_items_that_do_not(rt: HostRuntime) {
        let mut out = *b"......";
        assert_eq!(rt; write(&Twice { text: b"ab" }, &mut out), Some(4));
        assert_eq!(rt; out, *b"abab..");
        assert_eq!(rt; write(&Twice { text: b"abc" }, &mut out), Some(6));
        assert_eq!(rt; out, *b"abcabc");
        assert_eq!(rt; write(&Twice { text: b"abcd" }, &mut out), None);
        assert_eq!(rt; out, *b"abcabc");
    }

    #[test]
    fn items_without_room_are_counted(rt: HostRuntime) {
        let mut out = [0u32; 2];
        let mut cursor = Cursor::new(&mut out);
        cursor.put_all(&[7, 8]);
        cursor.put(9);
        assert_eq!(rt; cursor.len(), 3);
        assert_eq!(rt; out, [7, 8]);
    }
}
