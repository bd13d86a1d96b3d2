//! Lines of a text, which a test may indent.

use crate::ScriptFault;
use std::alloc::AllocGlobal;

/// The lines without what stands round each of them.
pub fn trimmed(rt: &impl AllocGlobal, lines: &str) -> Result<String, ScriptFault> {
    let mut text = String::new(rt.alloc());
    for line in lines.trim().lines() {
        text.push_str(line.trim())?;
        text.push('\n')?;
    }
    Ok(text)
}

/// What is asked in a line, and the answer behind the bar.
pub fn asked(line: &str) -> Result<(&str, &str), ScriptFault> {
    let (question, wanted) = line
        .split_once('|')
        .ok_or(ScriptFault::Wanted("an answer"))?;
    Ok((question.trim(), wanted.trim()))
}

/// What stands before the mark, and behind it.
pub(crate) fn halves<'a>(
    text: &'a str,
    mark: char,
    wanted: &'static str,
) -> Result<(&'a str, &'a str), ScriptFault> {
    text.split_once(mark).ok_or(ScriptFault::Wanted(wanted))
}

/// The number that the word is.
pub(crate) fn number(word: &str) -> Result<u64, ScriptFault> {
    match word.parse::<u64>() {
        Ok(number) => Ok(number),
        Err(_) => Err(ScriptFault::Wanted("a number")),
    }
}
