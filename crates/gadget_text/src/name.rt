//! What words are: stems, numbers and names.

ghost use Rattle.std.specs.Prelude.{◌≡◌, ◌<◌, ◌≤◌, ◌+◌, ◌==◌, length, drop};
ghost use Rattle.std.specs.List.{list_all, slice_split, position_or_len};
ghost use Rattle.std.specs.Char.{is_ascii_digit};
ghost use Rattle.gadget_text.specs.Names.{starts_stem, continues_stem, is_stem, is_number, is_name};

fn starts_stem(b: u8) -> bool
    ensures { result ≡ starts_stem b }
{
    b.is_ascii_alphabetic() || b == b'_'
}

// What may stand after the first byte of a stem.
fn continues_stem(bytes: &[u8]) -> bool
    ensures { result ≡ list_all continues_stem bytes.now }
{
    bytes.iter().all(|b| starts_stem(*b) || b.is_ascii_digit())
}

/// Whether a word is a letter or `_`, and then letters, digits and `_`.
pub fn is_stem(word: &[u8]) -> bool
    ensures { result ≡ is_stem word.now }
{
    if word.is_empty() {
        return false;
    }
    starts_stem(word[0]) && continues_stem(&word[1..])
}

fn are_digits(bytes: &[u8]) -> bool
    ensures { result ≡ list_all is_ascii_digit bytes.now }
{
    bytes.iter().all(|b| b.is_ascii_digit())
}

/// Whether a word is one digit or more.
pub fn is_number(bytes: &[u8]) -> bool
    ensures { result ≡ is_number bytes.now }
{
    !bytes.is_empty() && are_digits(bytes)
}

// Whether the parts between dots are numbers.
fn are_numbers(bytes: &[u8]) -> bool
    ensures { result ≡ list_all is_number (slice_split (λ b. b == 46) bytes.now) }
{
    bytes.split(|b| *b == b'.').all(|part| is_number(part))
}

// How many bytes stand before the first dot.
fn dot_place(word: &[u8]) -> usize
    ensures place { result ≡ position_or_len (λ b. b == 46) word.now }
    ensures within { result ≤ length word.now }
{
    for (i, b) in word.iter().enumerate() {
        if *b == b'.' {
            return i;
        }
    }
    word.len()
}

// What stands after the dot at a place.
fn behind_dot(word: &[u8], dot: usize) -> &[u8]
    requires { dot < length word.now }
    ensures { result.now ≡ drop (dot + 1) word.now }
{
    &word[dot + 1..]
}

/// Whether a word is a stem, and then numbers with a dot in front of each.
#[tactic(auto, unfolding(crate::specs::Names::is_name))]
pub fn is_name(word: &[u8]) -> bool
    ensures { result ≡ is_name word.now }
{
    let dot = dot_place(word);
    if dot == word.len() {
        return is_stem(word);
    }
    is_stem(&word[..dot]) && are_numbers(behind_dot(word, dot))
}
