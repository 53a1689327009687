//! What a line of an answers list states.
ghost use Rattle.std.specs.Prelude.{◌≡◌, None, MatchOption, is_some};
ghost use Rattle.std.specs.Result.{result_ok};
ghost use Rattle.hex.specs.Hex.{decode_of};
ghost use Rattle.list_answers.specs.AnswersText.{field_of, asked_of};
ghost use Rattle.list_answers.specs.AnswerLines.{fields_asked, line_asked};

use crate::hexadecimal::are_pairs;
use crate::texts::Words;
use der_core::octets::is_same;

/// The five fields of a line, which are those of a question if each is pairs of digits.
#[derive(Debug, Drop)]
pub(crate) struct Fields<'a> {
    pub key: &'a [u8],
    pub digest_alg: &'a [u8],
    pub signature_alg: &'a [u8],
    pub tail: &'a [u8],
    pub signature: &'a [u8],
}

// The digits of a field: none for `-`, and otherwise one or more octets. They aren't tested.
#[tactic(auto, using(crate::proofs::Pairs::none_decode))]
fn digits_of(word: &[u8]) -> Option<&[u8]>
    ensures { MatchOption result (field_of word.now ≡ None) (λ d. field_of word.now ≡ result_ok (decode_of d.now)) }
{
    if is_same(word, b"-") {
        return Some(b"");
    }
    if word.is_empty() {
        return None;
    }
    Some(word)
}

/// The fields of a line of five. Their digits aren't tested.
#[tactic(auto, using(crate::proofs::AskedFields::missing_field))]
pub(crate) fn fields_of(line: &[u8]) -> Option<Fields<'_>>
    ensures { line_asked result ≡ asked_of line.now }
{
    let mut words = Words::of(line);
    let (Some(key), Some(digest_alg), Some(signature_alg), Some(tail), Some(signature), None) = (
        words.next(),
        words.next(),
        words.next(),
        words.next(),
        words.next(),
        words.next(),
    ) else {
        return None;
    };
    Some(Fields {
        key: digits_of(key)?,
        digest_alg: digits_of(digest_alg)?,
        signature_alg: digits_of(signature_alg)?,
        tail: digits_of(tail)?,
        signature: digits_of(signature)?,
    })
}

/// Whether the fields are pairs of digits, and so state a question. It takes no memory.
#[tactic(auto, using(crate::proofs::AskedFields::all_pairs))]
pub(crate) fn are_asked(fields: &Fields<'_>) -> bool
    ensures { result ≡ is_some (fields_asked fields.now) }
{
    are_pairs(fields.key)
        && are_pairs(fields.digest_alg)
        && are_pairs(fields.signature_alg)
        && are_pairs(fields.tail)
        && are_pairs(fields.signature)
}
