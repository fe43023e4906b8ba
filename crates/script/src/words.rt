// The words of a line.
ghost use Rattle.std.specs.Prelude.{◌≡◌, ℕ, ◌≤◌, List, length, not, position};
ghost use Rattle.std.specs.List.{position_or_len};
ghost use Rattle.std.specs.Iterator.{YieldsFirstBy, item_count};
ghost use Rattle.script.specs.Words.{is_blank, words_of, line_words, none_left};

use std::marker::Model;

/// The words of a line that are yet to be read.
#[derive(Drop)]
pub(crate) struct Words<'a> {
    rest: &'a [u8],
}

impl<'a> Model for Words<'a> {
    ghost Value = { List (List ℕ) };

    ghost view = { λ words. words_of words.rest.now };
}

// Whether a byte parts words: a space, a tab or a carriage return.
fn is_blank(byte: u8) -> bool
    ensures { result ≡ is_blank byte }
{
    matches!(byte, b' ' | b'\t' | b'\r')
}

// Where the first word begins, if there is one.
fn word_start(bytes: &[u8]) -> Option<usize>
    ensures { result ≡ position (λ b. not (is_blank b)) bytes.now }
{
    bytes.iter().position(|byte| !is_blank(*byte))
}

// How many bytes stand before the first blank.
fn word_len(bytes: &[u8]) -> usize
    ensures value { result ≡ position_or_len is_blank bytes.now }
    ensures within { result ≤ length bytes.now }
{
    bytes.iter().take_while(|byte| !is_blank(**byte)).count()
}

impl<'a> Words<'a> {
    /// The words of a line; a line that begins with `#` has none.
    pub(crate) fn of_line(line: &'a [u8]) -> Words<'a>
        ensures { result ≡ line_words line.now }
    {
        if line.starts_with(b"#") {
            Words { rest: &[] }
        } else {
            Words { rest: line }
        }
    }

    /// Whether no word is left.
    pub(crate) fn is_empty(&self) -> bool
        ensures { result ≡ none_left self.now }
    {
        word_start(self.rest).is_none()
    }
}

impl<'a> Iterator for Words<'a> {
    type Item = &'a [u8];

    ghost next_gives = { YieldsFirstBy (λ word. word.now) (λ words. words) };

    ghost remaining = { item_count (λ words. words) };

    fn next(&mut self) -> Option<&'a [u8]> {
        // Not `split` and `filter`: an iterator with closures is no type that the struct can name.
        let (_, line) = self.rest.split_at(word_start(self.rest)?);
        let (word, rest) = line.split_at(word_len(line));
        self.rest = rest;
        Some(word)
    }
}
