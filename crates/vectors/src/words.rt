// Words to be lent.

// The first n words, or all where there are not so many.
pub(crate) fn front(words: &[u16], n: u16) -> &[u16] {
    &words[..words.len().min(n as usize)]
}
