//! Texts in which a token is marked: an `@` stands directly in front of it, or in front of the space before it. No C file has that byte.
use c_syntax::tokens;
use std::alloc::Global;
use std::test::Fail;

/// No text of a test has as many bytes.
pub const LENGTH_LIMIT: usize = 100_000;

/// A text, and the number of the token that was marked in it, or None where no mark stood.
#[derive(Debug, Drop)]
pub struct Marked {
    pub text: String,
    pub token: Option<usize>,
}

/// How many tokens a text has.
fn token_count(alloc: Global, text: &str) -> Result<usize, Fail> {
    if text.len() >= LENGTH_LIMIT {
        return Err(Fail::from("a long text"));
    }
    match tokens(alloc, text.as_bytes()) {
        Ok(list) => Ok(list.len()),
        Err(_) => Err(Fail::from("no tokens")),
    }
}

/// A text without its mark.
pub fn unmarked(alloc: Global, text: &str) -> Result<Marked, Fail> {
    let Some((before, after)) = text.split_once('@') else {
        return Ok(Marked {
            text: text.to_string(alloc)?,
            token: None,
        });
    };
    Ok(Marked {
        text: format!(in alloc; "{before}{after}")?,
        token: Some(token_count(alloc, before)?),
    })
}

/// A text after a change `OLD => NEW`: its first OLD is made NEW, in which the mark may stand.
pub fn changed(alloc: Global, text: &str, change: &str) -> Result<Marked, Fail> {
    let (old, new) = change.split_once(" => ").ok_or("a row without a change")?;
    let (before, after) = text.split_once(old).ok_or("nothing to change")?;
    let marked = format!(in alloc; "{before}{new}{after}")?;
    unmarked(alloc, marked.as_str())
}
