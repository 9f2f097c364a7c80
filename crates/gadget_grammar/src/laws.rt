//! What the definitions say together.

ghost use Rattle.std.specs.Prelude.{◌≡◌, ℕ, List, ◌∷◌};
ghost use Rattle.gadget_text.specs.Tokens.{Lexeme};
ghost use Rattle.gadget_grammar.specs.Grammar.{Tree, IsExpression, IsAssignment};
ghost use Rattle.gadget_grammar.specs.Steps.{Meaning, tree_value, postfix, stack_after_steps};

/// Tokens are an expression in one way at most, and an assignment of one expression to one name.
pub fn one_tree_law()
    ensures expression { (lexemes : List Lexeme) (s t : Tree) →
        IsExpression lexemes s → IsExpression lexemes t → s ≡ t }
    ensures assignment { (lexemes : List Lexeme) (n m : List ℕ) (s t : Tree) →
        IsAssignment lexemes n s → IsAssignment lexemes m t → (n ≡ m) × (s ≡ t) }
{}

/// The steps of a tree leave its value on the stack, whatever names, sums and products mean.
pub fn value_law<V>()
    ensures { (meaning : Meaning V) (tree : Tree) (stack : List V) →
        stack_after_steps meaning (postfix tree) stack ≡ tree_value meaning tree ∷ stack }
{}
