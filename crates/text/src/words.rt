ghost use Rattle.std.specs.Prelude.{IfErr, IfOk};
ghost use Rattle.text.specs.Words.{HasWord, Words};

use crate::word::Word;
use std::alloc::{AllocError, Global};

/// The words of a line, which white space separates. A line without words asks for no memory.
pub fn read_words(heap: Global, line: &str) -> Result<Vec<Word>, AllocError>
    ensures words { IfOk result (λ v. Words line.now v.items) }
    ensures no_memory { IfErr result (λ _. HasWord line.now) }
{
    let mut words = Vec::new(heap);
    for text in line.split_whitespace() {
        words.push(Word::from(text))?;
    }
    Ok(words)
}
