/// Changes bytes as a text says: a place, then the bytes from there on, and so on after each comma. `None` if it is
/// no such text, or a place lies outside.
pub(crate) fn patch(bytes: &mut [u8], changes: &str) -> Option<()> {
    for change in changes.split(',') {
        put(bytes, change)?;
    }
    Some(())
}

/// Changes bytes from one place on.
fn put(bytes: &mut [u8], change: &str) -> Option<()> {
    let mut words = change.split_whitespace();
    let mut at = words.next()?.parse::<usize>().ok()?;
    for word in words {
        if at >= bytes.len() {
            return None;
        }
        bytes[at] = word.parse::<u8>().ok()?;
        at += 1;
    }
    Some(())
}
