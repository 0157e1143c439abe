// How far the front of a text goes as a field of some kind.
ghost use Rattle.std.specs.Prelude.{◌≡◌, ℕ, ◌<◌, ◌≤◌};
ghost use Rattle.tokens.specs.Extents.{digits, shared, size, after, literal, one_of, number, positive, signed, width, cyclic_map_word, map_word, extent_of};

/// The kinds of field that a line may have.
#[derive(Clone, Copy, PartialEq, Eq, Debug)]
pub enum FieldKind {
    /// A number without a sign.
    Number,
    /// A number that a minus may precede.
    Signed,
    /// `all` or `seq`.
    Mode,
    /// `i` or `j`.
    Variable,
    /// `one`, `block`, `cyclic` or `cyclic:k`.
    Map,
}

/// The bytes at the front of a text after which no field of a kind can go on.
#[derive(Clone, Copy, PartialEq, Eq, Debug)]
pub struct Stuck {
    pub after: usize,
}

// How many bytes of `word` the text begins with.
fn shared_bytes(word: &[u8], text: &[u8]) -> usize
    ensures { result ≡ shared word.now text.now }
{
    word.iter().zip(text).take_while(|(w, b)| w == b).count()
}

// How many digits the text begins with, `most` of them at the most.
fn leading_digits(most: usize, text: &[u8]) -> usize
    ensures value { result ≡ digits most text.now }
    ensures bound { result ≤ most }
{
    text.iter()
        .take(most)
        .take_while(|b| b.is_ascii_digit())
        .count()
}

// What follows `n` bytes that are fine.
fn moved_on(n: usize, e: Result<usize, Stuck>) -> Result<usize, Stuck>
    requires { (n < 8) × (size e < 9) }
    ensures { result ≡ after n e }
{
    e.map(|k| n + k).map_err(|e| Stuck { after: n + e.after })
}

pub(crate) fn literal_extent(word: &[u8], text: &[u8]) -> Result<usize, Stuck>
    ensures { result ≡ literal word.now text.now }
{
    let n = shared_bytes(word, text);
    if n == word.len() {
        Ok(n)
    } else {
        Err(Stuck { after: n })
    }
}

fn either_extent(word: &[u8], other: &[u8], text: &[u8]) -> Result<usize, Stuck>
    ensures { result ≡ one_of word.now other.now text.now }
{
    if shared_bytes(word, text) > 0 {
        literal_extent(word, text)
    } else {
        literal_extent(other, text)
    }
}

fn number_extent(text: &[u8]) -> Result<usize, Stuck>
    ensures value { result ≡ number text.now }
    ensures bound { size result < 8 }
{
    if let [b'0', ..] = text {
        return Ok(1);
    }
    match leading_digits(4, text) {
        0 => Err(Stuck { after: 0 }),
        n => Ok(n),
    }
}

fn positive_extent(text: &[u8]) -> Result<usize, Stuck>
    ensures value { result ≡ positive text.now }
    ensures bound { size result < 8 }
{
    match text {
        [b'0', ..] => Err(Stuck { after: 0 }),
        _ => number_extent(text),
    }
}

fn signed_extent(text: &[u8]) -> Result<usize, Stuck>
    ensures { result ≡ signed text.now }
{
    match text {
        [b'-', rest @ ..] => moved_on(1, positive_extent(rest)),
        _ => number_extent(text),
    }
}

fn width_extent(text: &[u8]) -> Result<usize, Stuck>
    ensures value { result ≡ width text.now }
    ensures bound { size result < 9 }
{
    match text {
        [b':', rest @ ..] => moved_on(1, number_extent(rest)),
        _ => Ok(0),
    }
}

fn cyclic_extent(text: &[u8]) -> Result<usize, Stuck>
    ensures { result ≡ cyclic_map_word text.now }
{
    literal_extent(b"cyclic", text)?;
    moved_on(6, width_extent(&text[6..]))
}

fn map_extent(text: &[u8]) -> Result<usize, Stuck>
    ensures { result ≡ map_word text.now }
{
    if shared_bytes(b"one", text) > 0 {
        literal_extent(b"one", text)
    } else if shared_bytes(b"block", text) > 0 {
        literal_extent(b"block", text)
    } else {
        cyclic_extent(text)
    }
}

/// The bytes at the front of a text that make up a field of a kind,
/// or those after which no such field can go on.
pub fn extent_of(kind: FieldKind, text: &[u8]) -> Result<usize, Stuck>
    ensures { result ≡ extent_of kind text.now }
{
    match kind {
        FieldKind::Number => number_extent(text),
        FieldKind::Signed => signed_extent(text),
        FieldKind::Mode => either_extent(b"all", b"seq", text),
        FieldKind::Variable => either_extent(b"i", b"j", text),
        FieldKind::Map => map_extent(text),
    }
}
