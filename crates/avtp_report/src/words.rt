//! The words of a command line.

/// What the arguments ask for.
#[derive(Clone, Copy)]
pub enum Words {
    Help,
    Version,
    /// A report on the captures that the words name. If a page is wanted, `html` is the index of the page's name.
    Report { html: Option<usize> },
    Faulty,
}

/// The option that precedes the name of the page.
const HTML: &str = "--html";

/// What the words ask for.
pub fn read_words(words: &[String]) -> Words {
    if let [word] = words {
        match word.as_str() {
            "--help" => return Words::Help,
            "--version" => return Words::Version,
            _ => {}
        }
    }
    read_names(words)
}

fn read_names(words: &[String]) -> Words {
    let mut html = None;
    let mut names: usize = 0;
    let mut wants_page = false;
    for (place, word) in words.iter().enumerate() {
        let word = word.as_str();
        if !wants_page && word == HTML && html.is_none() {
            wants_page = true;
        } else if word.is_empty() || word.starts_with('-') {
            return Words::Faulty;
        } else if wants_page {
            html = Some(place);
            wants_page = false;
        } else {
            names = names.saturating_add(1);
        }
    }
    if names == 0 || wants_page || is_also_read(words, html) {
        return Words::Faulty;
    }
    Words::Report { html }
}

/// Whether the page has the same name as one of the captures.
fn is_also_read(words: &[String], html: Option<usize>) -> bool {
    let Some(page) = html else {
        return false;
    };
    let Some(name) = words.get(page) else {
        return false;
    };
    for (place, word) in words.iter().enumerate() {
        if place != page && word.as_str() == name.as_str() {
            return true;
        }
    }
    false
}

/// Whether the word at index `place` names a capture. Two words name no capture: `--html`, and the word directly after
/// it, which is the page's name.
pub fn is_capture(html: Option<usize>, place: usize) -> bool {
    match html {
        Some(page) => place != page && place.saturating_add(1) != page,
        None => true,
    }
}
