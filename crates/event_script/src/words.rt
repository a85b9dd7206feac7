//! The words of a line, cut at a space.
ghost use Rattle.std.specs.Prelude.{◌≡◌, ◌+◌, ◌∷◌, ◌==◌, MatchOption, length};
ghost use Rattle.std.specs.List.{position};
ghost use Rattle.std.specs.Option.{option_map};
ghost use Rattle.script_model.specs.Lines.{words_of};
ghost use Rattle.event_script.specs.Views.{rest_words};

pub(crate) fn place_of(bytes: &[u8], byte: u8) -> Option<usize>
    ensures { result ≡ position (λ c. c == byte) bytes.now }
{
    bytes.iter().position(|c| *c == byte)
}

/// The first word of a line, and what follows the space behind it, where there is one.
#[tactic(auto, using(crate::proofs::Cuts::words_at, crate::proofs::Cuts::one_word))]
pub fn split_word(line: &[u8]) -> (&[u8], Option<&[u8]>)
    ensures words { words_of line.now ≡ result.0.now ∷ rest_words (option_map (λ r. r.now) result.1) }
    ensures len { MatchOption result.1 (length result.0.now ≡ length line.now)
        (λ rest. length result.0.now + 1 + length rest.now ≡ length line.now) }
{
    match place_of(line, b' ') {
        Some(at) => (&line[..at], Some(&line[at + 1..])),
        None => (line, None),
    }
}
