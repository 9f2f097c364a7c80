//! What files say.

ghost use Rattle.std.specs.Prelude.{◌≡◌, ℕ, Bool, false, List, All, Contains, Result, Ok, Err};
ghost use Rattle.std.specs.List.{AllZip};
ghost use Rattle.gadget_model.specs.Circuit.{Circuit, value_of};
ghost use Rattle.gadget_text.specs.Tokens.{TokenLine, token_lines};
ghost use Rattle.gadget_text.specs.declared.file_error.FileError.{FileError};
ghost use Rattle.gadget_text.specs.declared.file_error.FileError.TheVariants.{OutOfMemory};
ghost use Rattle.gadget_headers.specs.Headers.{Preamble, preamble_of};
ghost use Rattle.gadget_grammar.specs.Grammar.{Tree, IsAssignment};
ghost use Rattle.gadget_tree.specs.Variables.{names_of, header_variables};
ghost use Rattle.gadget_tree.specs.Operations.{line_names, line_parts};
ghost use Rattle.gadget_tree.specs.File.{FileSays};
ghost use Rattle.gadget_tree.specs.Gadgets.{IsGadget};
ghost use Rattle.gadget_tree.specs.Values.{value_named, HasPart};
ghost use Rattle.gadget_tree.specs.Wires.{AreWires};
ghost use Rattle.gadget_tree.specs.Canonical.{canonical_text, AreEqualButForLines};

/// Each file says exactly one thing: a gadget, or its first offence, which is never that memory ran out.
pub fn reading_law()
    ensures one { (bytes : List ℕ) (r s : Result Circuit FileError) → FileSays bytes r → FileSays bytes s → r ≡ s }
    ensures some { (bytes : List ℕ) → (r : Result Circuit FileError) × FileSays bytes r }
    ensures offence { (bytes : List ℕ) → FileSays bytes (Err OutOfMemory) → ⊥ }
    ensures gadget { (bytes : List ℕ) (g : Circuit) → FileSays bytes (Ok g) → IsGadget g }
{}

/// The values of a file's names, for inputs x and an assignment r of the randoms: input shares and randoms have theirs,
/// and each variable that a line makes has the value of its part of the line's tree, where the names in the tree have
/// theirs.
pub fn value_law()
    ensures shares_and_randoms { (bytes : List ℕ) (g : Circuit) (h : Preamble) (x : ℕ → Bool) (r : List Bool) →
        FileSays bytes (Ok g) → preamble_of (token_lines bytes) ≡ Ok h →
        All (λ v. value_named g x r v.name ≡ value_of x r (λ _. false) v.node) (header_variables h) }
    ensures lines { (bytes : List ℕ) (g : Circuit) (line : TokenLine) (name : List ℕ) (tree : Tree) →
        (x : ℕ → Bool) (r : List Bool) →
        FileSays bytes (Ok g) → Contains (token_lines bytes) line → IsAssignment line.lexemes name tree →
        AllZip (HasPart g x r) (line_names name tree) (line_parts tree) }
{}

/// The wires of a file's gadget, by their names: the input shares and randoms, and then one for each operation of each
/// line, or for its copy. There are no others.
pub fn wires_law()
    ensures { (bytes : List ℕ) (g : Circuit) (h : Preamble) →
        FileSays bytes (Ok g) → preamble_of (token_lines bytes) ≡ Ok h →
        AreWires (names_of (header_variables h)) h.lines (names_of g.variables) }
{}

/// The canonical text of a gadget reads again as the same gadget, apart from the lines of its variables.
pub fn canonical_law()
    ensures { (g : Circuit) → IsGadget g →
        (h : Circuit) × FileSays (canonical_text g) (Ok h) × AreEqualButForLines g h }
{}
