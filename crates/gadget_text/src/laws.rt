//! What the definitions say together.

ghost use Rattle.std.specs.Prelude.{◌≡◌, ◌↔◌, ◌<◌, ◌==◌, ◌++◌, ◌∷◌, ℕ, List, IsTrue, All, true, length, take, drop, flat_map};
ghost use Rattle.std.specs.List.{list_all, prefix_len};
ghost use Rattle.gadget_text.specs.declared.token.Token.{Token};
ghost use Rattle.gadget_text.specs.declared.token.TokenKind.TheVariants.{Word};
ghost use Rattle.gadget_text.specs.declared.words.Words.{Words};
ghost use Rattle.gadget_text.specs.Bytes.{is_in_word};
ghost use Rattle.gadget_text.specs.Lines.{lines_of, line_kind, kept_part, counts};
ghost use Rattle.gadget_text.specs.Names.{is_name, IsStemWithNumbers};
ghost use Rattle.gadget_text.specs.Segments.{token, segments, line_segments, joined};
ghost use Rattle.gadget_text.specs.Tokens.{line_lexemes, token_lines};
ghost use Rattle.gadget_text.specs.Places.{tokens_of, lexemes_in, Rises, LiesWithin, runs_by_line, lines_in};

/// The segments of a line that counts are its kept part, side by side.
pub fn segments_law()
    ensures { (line : List ℕ) → counts (line_kind line) ≡ true → joined (line_segments line) ≡ kept_part line }
{}

/// Each token's text is its slice of the bytes, and the spans rise.
pub fn slices_law()
    ensures texts { (bytes : List ℕ) → lexemes_in bytes (tokens_of bytes) ≡ flat_map line_lexemes (lines_of bytes) }
    ensures spans { (bytes : List ℕ) → Rises 0 (length bytes) (tokens_of bytes) }
{}

/// The runs of tokens of one line are the lines that have tokens, and the first run ends before the
/// first token of another line.
pub fn lines_law()
    ensures lines { (bytes : List ℕ) → lines_in bytes (tokens_of bytes) ≡ token_lines bytes }
    ensures first { (t : Token) (ts : List Token) → let n = prefix_len (λ u. u.line == t.line) ts in
        runs_by_line (t ∷ ts) ≡ (t ∷ take n ts) ∷ runs_by_line (drop n ts) }
{}

/// Bytes of a word are one word where no other byte of a word stands after them.
pub fn words_law()
    ensures { (words : Words) (w rest : List ℕ) →
        list_all (is_in_word words) w ≡ true → 0 < length w → prefix_len (is_in_word words) rest ≡ 0 →
        segments words (w ++ rest) ≡ token Word w ∷ segments words rest }
{}

/// The tokens of a file lie within its bytes, so that the text of each can be read.
pub fn spans_law()
    ensures { (bytes : List ℕ) → All (LiesWithin (length bytes)) (tokens_of bytes) }
{}

/// A name is a stem, and then numbers with a dot in front of each.
pub fn name_law()
    ensures { (word : List ℕ) →
        IsTrue (is_name word) ↔ ((stem : List ℕ) × (numbers : List (List ℕ)) × IsStemWithNumbers word stem numbers) }
{}
