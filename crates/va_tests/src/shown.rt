//! Source trees as one line.
use std::alloc::Global;
use std::test::Fail;
use va_tree::Source;

/// The names of a debug text as they are spelled, between `'`, in place of the numbers of their bytes.
fn with_names(alloc: Global, text: &str) -> Result<String, Fail> {
    let mut shown = String::new(alloc);
    for (number, part) in text.split("Name { bytes: [").enumerate() {
        if number == 0 {
            shown.push_str(part)?;
        } else {
            let (codes, rest) = part.split_once("] }").ok_or("a name without an end")?;
            shown.push('\'')?;
            for code in codes.split(", ") {
                shown.push(char::from(code.parse::<u8>().ok().ok_or("no byte")?))?;
            }
            shown.push('\'')?;
            shown.push_str(rest)?;
        }
    }
    Ok(shown)
}

/// A source tree without the names of its fields: each node as its variant and, between braces, its parts in order. A list
/// stands between square brackets, a name between `'`, and a part that is kept apart between braces of its own.
pub fn shown(alloc: Global, source: &Source) -> Result<String, Fail> {
    let whole = format!(in alloc; "{source:?}")?;
    let named = with_names(alloc, &whole)?;
    let plain = named
        .replace(alloc, "Items { list: ", "")?
        .replace(alloc, "Items { items: ", "")?
        .replace(alloc, "] }", "]")?
        .replace(alloc, "Boxed { inner: ", "{ ")?;
    let mut shown = String::new(alloc);
    for word in plain.split_whitespace() {
        if !word.ends_with(':') {
            shown.push_str(word)?;
        }
    }
    Ok(shown)
}
