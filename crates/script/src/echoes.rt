// A line of a script told again.
ghost use Rattle.std.specs.Prelude.{◌≡◌, ◌++◌, IfOk, string_bytes, OnOk};
ghost use Rattle.std.proofs.Math.Utf8.{encodes};
ghost use Rattle.script.specs.Echoes.{joined};
ghost use Rattle.script.specs.Words.{words_of, line_words};

use crate::words::Words;
use std::alloc::{AllocError, Global};

/// The words of a line with one space between them, which have the same words again. A byte stands for the character of that number.
pub(crate) fn echo(heap: Global, line: &[u8]) -> Result<String, AllocError>
    ensures { IfOk result (λ s. (string_bytes s ≡ encodes (joined (line_words line.now))) × (words_of (joined (line_words line.now)) ≡ line_words line.now)) }
{
    let mut words = Words::of_line(line);
    let mut text = String::new(heap);
    if let Some(word) = words.next() {
        push_word(&mut text, word)?;
    }
    for word in words {
        text.push(' ')?;
        push_word(&mut text, word)?;
    }
    Ok(text)
}

fn push_word(text: &mut String, word: &[u8]) -> Result<(), AllocError>
    ensures { OnOk result (string_bytes text.new ≡ string_bytes text.old ++ encodes word.now) }
{
    text.extend(word.iter().map(|byte| char::from(*byte)))
}
