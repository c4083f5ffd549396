//! The words that follow the name of a line, each after a blank.
ghost use Rattle.std.specs.Prelude.{◌≡◌, ◌∷◌, [], ◌==◌, position};
ghost use Rattle.std.specs.Option.{option_map};
ghost use Rattle.log_lines.specs.Numbers.{IsCut};
ghost use Rattle.sum_lines.specs.laws.Words.{CutsFirst, CutsWords};

// The five words of a text.
pub(crate) fn five_words(text: &[u8]) -> Option<(&[u8], &[u8], &[u8], &[u8], &[u8])>
    ensures { CutsWords 5 text.now
        (option_map (λ w. w.0.now ∷ w.1.now ∷ w.2.now ∷ w.3.now ∷ w.4.now ∷ []) result) }
{
    match first_word(text) {
        Some((first, rest)) => match four_words(rest) {
            Some((second, third, fourth, fifth)) => Some((first, second, third, fourth, fifth)),
            None => None,
        },
        None => None,
    }
}

// The four words of a text.
fn four_words(text: &[u8]) -> Option<(&[u8], &[u8], &[u8], &[u8])>
    ensures { CutsWords 4 text.now
        (option_map (λ w. w.0.now ∷ w.1.now ∷ w.2.now ∷ w.3.now ∷ []) result) }
{
    match first_word(text) {
        Some((first, rest)) => match three_words(rest) {
            Some((second, third, fourth)) => Some((first, second, third, fourth)),
            None => None,
        },
        None => None,
    }
}

// The three words of a text.
pub(crate) fn three_words(text: &[u8]) -> Option<(&[u8], &[u8], &[u8])>
    ensures { CutsWords 3 text.now (option_map (λ w. w.0.now ∷ w.1.now ∷ w.2.now ∷ []) result) }
{
    match first_word(text) {
        Some((first, rest)) => match two_words(rest) {
            Some((second, third)) => Some((first, second, third)),
            None => None,
        },
        None => None,
    }
}

// The two words of a text.
fn two_words(text: &[u8]) -> Option<(&[u8], &[u8])>
    ensures { CutsWords 2 text.now (option_map (λ w. w.0.now ∷ w.1.now ∷ []) result) }
{
    match first_word(text) {
        Some((first, rest)) => match one_word(rest) {
            Some(second) => Some((first, second)),
            None => None,
        },
        None => None,
    }
}

// The only word of a text.
fn one_word(text: &[u8]) -> Option<&[u8]>
    ensures { CutsWords 1 text.now (option_map (λ w. w.now ∷ []) result) }
{
    match first_word(text) {
        Some((word, rest)) => { if rest.is_empty() { Some(word) } else { None } }
        None => None,
    }
}

/// What stands after a blank up to the next one, and what follows from there on. None where the text does not begin with a blank.
pub fn first_word(text: &[u8]) -> Option<(&[u8], &[u8])>
    ensures { CutsFirst text.now (option_map (λ cut. (cut.0.now, cut.1.now)) result) }
{
    match text {
        [b' ', after @ ..] => Some(cut_word(after)),
        _ => None,
    }
}

/// The first word, and what follows from the blank after it on.
pub fn cut_word(text: &[u8]) -> (&[u8], &[u8])
    ensures { IsCut text.now result.0.now result.1.now }
{
    match blank_place(text) {
        Some(place) => text.split_at(place),
        None => (text, &[]),
    }
}

// Where the first blank stands.
fn blank_place(text: &[u8]) -> Option<usize>
    ensures { result ≡ position (λ byte. byte == 32) text.now }
{
    text.iter().position(|byte| *byte == b' ')
}
