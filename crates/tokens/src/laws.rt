// What the answers of reading a line by its form mean.
ghost use Rattle.std.specs.Prelude.{◌≡◌};
ghost use Rattle.tokens.specs.FormLaws.{FormLaw};

/// The number of the refusal with which the reading of a line by its form stops, at the first byte with which
/// the text is no longer the beginning of such a line. A line that is read ends at its newline, whatever follows.
// Kept: a number; an enum of one case would say no more of a refusal that the law names by its number.
pub fn forms_stop_at_first_fault() -> u8
    ensures number { result ≡ 1 }
    ensures law { FormLaw }
{
    1
}
