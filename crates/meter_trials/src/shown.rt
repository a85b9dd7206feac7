//! The numbers that an output line shows, where they are not known to the last digit.
use crate::trial::{Trial, attempt};
use meter_cli::Status;
use std::process::Abort;
use std::test::Fail;

/// The line that is put by words that are done without a memory or a source.
pub(crate) fn line_of(rt: &(impl Abort + AllocGlobal), words: &str) -> Result<String, Fail> {
    let left = attempt(rt, &Trial::new(words, &crate::trial::EMPTY, b""))?;
    assert_eq!(rt; left.status, Status::Done);
    text_of(rt, &left.output)
}

/// These bytes as a text.
pub(crate) fn text_of(rt: &impl AllocGlobal, bytes: &[u8]) -> Result<String, Fail> {
    Ok(String::from_str(rt.alloc(), std::str::from_utf8(bytes)?)?)
}

/// The number that a word says.
pub(crate) fn number(word: Option<&str>) -> Result<i128, Fail> {
    Ok(word.ok_or("no number")?.parse::<i128>()?)
}

/// The two numbers of a line that has them alone behind its first word.
pub(crate) fn ends_behind(rt: &impl Abort, line: &str, first: &str) -> Result<(i128, i128), Fail> {
    let mut words = line.split_whitespace();
    assert_eq!(rt; words.next(), Some(first));
    let lo = number(words.next())?;
    let hi = number(words.next())?;
    assert_eq!(rt; words.next(), None);
    Ok((lo, hi))
}
