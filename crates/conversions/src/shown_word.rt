//! A word of a command line, as an error line shows it.
ghost use Rattle.std.specs.Prelude.{◌≡◌, Some};
ghost use Rattle.conversions.specs.ShownWord.{shown_character, shown};

use arrayvec::ArrayString;
use std::fmt;

/// The first characters of a word, in at most 40 bytes, with `?` for each control.
#[derive(Clone, Copy, Debug)]
pub struct ShownWord {
    pub(crate) text: ArrayString<40>,
}

fn shown_character(character: char) -> char
    ensures { result ≡ shown_character character }
{
    if character.is_control() {
        '?'
    } else {
        character
    }
}

impl ShownWord {
    /// Shows a word.
    pub fn of(word: &str) -> Self
        ensures { result.text.bytes ≡ shown word.now }
    {
        let mut text = ArrayString::new();
        for character in word.chars() {
            if let Err(_) = text.try_push(shown_character(character)) {
                return ShownWord { text };
            }
        }
        ShownWord { text }
    }
}

impl fmt::Display for ShownWord {
    ghost output = { λ word. Some word.text.bytes };

    fn fmt<W: fmt::Write>(&self, f: &mut fmt::Formatter<W>) -> fmt::Result {
        f.write_str(self.text.as_str())
    }
}
