//! How words are parted, and texts that are written short.
use crate::wrong::Wrong;
use std::alloc::Global;

/// What stands before the first of these, and what stands after it: nothing where there is none.
pub fn cut<'a>(text: &'a str, parted_by: &str) -> (&'a str, &'a str) {
    text.split_once(parted_by).unwrap_or((text, ""))
}

/// The first word, and the others.
pub fn first(words: &str) -> (&str, &str) {
    cut(words, " ")
}

/// Adds a word, which may say with `*` how often it stands there: `ab*3` for `ababab`.
pub fn push_repeated(whole: &mut String, word: &str) -> Result<(), Wrong> {
    let Some((part, count)) = word.split_once('*') else {
        whole.push_str(word)?;
        return Ok(());
    };
    let count: u32 = count.parse()?;
    for _ in 0..count {
        whole.push_str(part)?;
    }
    Ok(())
}

/// Adds the text with each of its repetitions written out: `{ab*3}` stands for `ababab`, and `{}` for nothing.
pub fn push_spelt(whole: &mut String, text: &str) -> Result<(), Wrong> {
    for part in text.split('}') {
        let (plain, repeated) = cut(part, "{");
        whole.push_str(plain)?;
        push_repeated(whole, repeated)?;
    }
    Ok(())
}

/// The text with each of its repetitions written out.
pub fn spelt(alloc: Global, text: &str) -> Result<String, Wrong> {
    let mut whole = String::new(alloc);
    push_spelt(&mut whole, text)?;
    Ok(whole)
}
