// The words of a text.
ghost use Rattle.std.specs.Prelude.{◌≡◌, ◌<◌, [], ◌∷◌, length, IfSome, MatchOption};
ghost use Rattle.journal.specs.Words.{uncommented, words_of};

// The line up to its comment.
pub(crate) fn uncommented(line: &str) -> &str
    ensures { result.now ≡ uncommented line.now }
{
    match line.split_once('#') {
        Some((front, _)) => front,
        None => line,
    }
}

// The first word of a text, and what stands after it; none where there is no word.
pub(crate) fn next_word(text: &str) -> Option<(&str, &str)>
    ensures words { MatchOption result (words_of text.now ≡ []) (λ found.
        words_of text.now ≡ found.0.now ∷ words_of found.1.now) }
    ensures shorter { IfSome result (λ found. length found.1.now < length text.now) }
{
    let mut left = text;
    while let Some((front, after)) = left.split_once(' ') {
        if !front.is_empty() {
            return Some((front, after));
        }
        left = after;
    }
    if left.is_empty() {
        None
    } else {
        Some((left, ""))
    }
}
