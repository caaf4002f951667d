//! Which ends the words of the program name.

/// The name of standard input as a source or a book, and of a journal that keeps nothing.
const STANDARD: &str = "-";

/// Where a source or a book is read from.
#[derive(Clone, Copy)]
pub enum Input<'a> {
    /// Standard input.
    Standard,
    /// The file of this name.
    File(&'a str),
    /// Nowhere: the command reads none.
    Nothing,
}

/// The source that the command needs.
pub fn source_of<'a>(words: &[&'a str]) -> Input<'a> {
    match words {
        [source, _, command, ..]
            if is_among(command, &["check", "list", "replay", "run", "show"]) => { named(source) }
        _ => Input::Nothing,
    }
}

/// The book that the command needs, which stands in the place of the journal.
pub fn book_of<'a>(words: &[&'a str]) -> Input<'a> {
    match words {
        [_, book, command, ..] if is_among(command, &["replay", "span"]) => named(book),
        _ => Input::Nothing,
    }
}

fn named(name: &str) -> Input<'_> {
    if name == STANDARD {
        Input::Standard
    } else {
        Input::File(name)
    }
}

/// Whether the command reads its source from the file of this name.
pub fn reads(words: &[&str], name: &str) -> bool {
    match source_of(words) {
        Input::File(source) => source == name,
        Input::Standard | Input::Nothing => false,
    }
}

/// The name of the file to which the command writes its journal, if it does.
pub fn journal_of<'a>(words: &[&'a str]) -> Option<&'a str> {
    match words {
        [_, journal, command, ..] if is_among(command, &["run", "trial"]) => {
            if *journal == STANDARD {
                None
            } else {
                Some(journal)
            }
        }
        _ => None,
    }
}

fn is_among(word: &str, words: &[&str]) -> bool {
    words.iter().any(|other| *other == word)
}

/// The words of the top call: those from the command on, or none where fewer than three are given.
pub fn asked<'w, 'a>(words: &'w [&'a str]) -> &'w [&'a str] {
    if words.len() < 3 { &[] } else { &words[2..] }
}
