//! The canonical text of a gadget.

ghost use Rattle.std.specs.Prelude.{◌≡◌, ◌<◌, ◌++◌, ◌∷◌, [], ℕ, length, codes, decimal, Ok, IfOk, OnOk};
ghost use Rattle.gadget_model.specs.Circuit.{Circuit, NamesEarlier};
ghost use Rattle.gadget_tree.specs.Seen.{node_of, variables_of, printed_words};
ghost use Rattle.gadget_tree.specs.File.{FileSays};
ghost use Rattle.gadget_tree.specs.Canonical.{random_name, randoms_line, randoms_among, operation_line, operations_among, printed_line, printed_lines, canonical_text, AreEqualButForLines};

use crate::gadget::Gadget;
use crate::name::Name;
use crate::name_order::name_of;
use crate::var::{Var, VarKind};
use mask_bytes::OutOfMemory;
use std::alloc::Global;

/// The canonical text of a gadget: its headers, and then each operation on a line of its own. It reads again as the
/// same gadget, apart from the lines of its variables.
pub fn print_gadget(alloc: Global, gadget: &Gadget) -> Result<Vec<u8>, OutOfMemory>
    ensures text { IfOk result (λ text. text.items ≡ canonical_text gadget.now) }
    ensures reads_again { IfOk result (λ text.
        (h : Circuit) × FileSays text.items (Ok h) × AreEqualButForLines gadget.now h) }
{
    let vars = gadget.vars();
    let mut text = shares_line(alloc, gadget.shares())?;
    add_header(&mut text, b"#IN", gadget.inputs())?;
    add_randoms(alloc, &mut text, vars)?;
    add_header(&mut text, b"#OUT", gadget.outputs())?;
    add_operations(&mut text, gadget)?;
    Ok(text)
}

// The line of the number of shares.
fn shares_line(alloc: Global, shares: u8) -> Result<Vec<u8>, OutOfMemory>
    ensures { IfOk result (λ text. text.items ≡ printed_line (codes "#SHARES" ∷ decimal shares ∷ [])) }
{
    Ok(format!(in alloc; "#SHARES {shares}\n")?.into_bytes())
}

// Adds the line of a header that lists names.
fn add_header(text: &mut Vec<u8>, header: &[u8], names: &[Name]) -> Result<(), OutOfMemory>
    ensures { OnOk result (text.new.items ≡ text.old.items ++ printed_line (header.now ∷ names.now)) }
{
    text.extend_from_slice(header)?;
    for name in names {
        add_word(text, name.bytes())?;
    }
    Ok(text.push(b'\n')?)
}

// Adds a space and a word.
fn add_word(text: &mut Vec<u8>, word: &[u8]) -> Result<(), OutOfMemory>
    ensures { OnOk result (text.new.items ≡ text.old.items ++ 32 ∷ word.now) }
{
    text.push(b' ')?;
    Ok(text.extend_from_slice(word)?)
}

// Adds the line of the randoms, where there are any.
fn add_randoms(alloc: Global, text: &mut Vec<u8>, vars: &[Var]) -> Result<(), OutOfMemory>
    ensures { OnOk result (text.new.items
        ≡ text.old.items ++ printed_lines (randoms_line (randoms_among (variables_of vars.now)))) }
{
    let words = random_words(alloc, vars)?;
    if words.is_empty() {
        return Ok(());
    }
    text.extend_from_slice(b"#RANDOMS")?;
    text.extend_from_slice(&words)?;
    Ok(text.push(b'\n')?)
}

// The names of the randoms, with a space in front of each.
fn random_words(alloc: Global, vars: &[Var]) -> Result<Vec<u8>, OutOfMemory>
    ensures { IfOk result (λ text. text.items ≡ printed_words (randoms_among (variables_of vars.now))) }
{
    let mut text = Vec::new(alloc);
    for var in vars {
        add_random(&mut text, var)?;
    }
    Ok(text)
}

// Adds the name of a variable, where it is a random.
fn add_random(text: &mut Vec<u8>, var: &Var) -> Result<(), OutOfMemory>
    ensures { OnOk result (text.new.items
        ≡ text.old.items ++ printed_words (random_name var.now.name (node_of var.now.kind))) }
{
    match var.kind {
        VarKind::Random(_) => add_word(text, var.name.bytes()),
        VarKind::Share { .. } | VarKind::Copy(_) | VarKind::Sum(..) | VarKind::Product(..) => {
            Ok(())
        }
    }
}

// Adds the lines of the operations.
fn add_operations(text: &mut Vec<u8>, gadget: &Gadget) -> Result<(), OutOfMemory>
    ensures { OnOk result (text.new.items
        ≡ text.old.items ++ printed_lines (operations_among gadget.now.variables gadget.now.variables)) }
{
    let all = gadget.vars();
    for var in all {
        add_operation(text, all, var)?;
    }
    Ok(())
}

// Adds the line of a variable, where it is an operation on these.
fn add_operation(text: &mut Vec<u8>, vars: &[Var], var: &Var) -> Result<(), OutOfMemory>
    requires { (randoms : ℕ) × NamesEarlier randoms (length vars.now) (node_of var.now.kind) }
    ensures { OnOk result (text.new.items ≡ text.old.items
        ++ printed_lines (operation_line (variables_of vars.now) var.now.name (node_of var.now.kind))) }
{
    match var.kind {
        VarKind::Share { .. } | VarKind::Random(_) => Ok(()),
        VarKind::Copy(a) => add_copy(text, var.name.bytes(), name_of(vars, a)),
        VarKind::Sum(a, b) => add_binary(
            text,
            var.name.bytes(),
            name_of(vars, a),
            b'+',
            name_of(vars, b),
        ),
        VarKind::Product(a, b) => add_binary(
            text,
            var.name.bytes(),
            name_of(vars, a),
            b'*',
            name_of(vars, b),
        ),
    }
}

// Adds the line of a copy.
fn add_copy(text: &mut Vec<u8>, name: &[u8], a: &[u8]) -> Result<(), OutOfMemory>
    ensures { OnOk result (text.new.items ≡ text.old.items ++ printed_line (name.now ∷ codes "=" ∷ a.now ∷ [])) }
{
    text.extend_from_slice(name)?;
    add_word(text, b"=")?;
    add_word(text, a)?;
    Ok(text.push(b'\n')?)
}

// Adds the line of an operation on two variables.
fn add_binary(
    text: &mut Vec<u8>,
    name: &[u8],
    a: &[u8],
    sign: u8,
    b: &[u8],
) -> Result<(), OutOfMemory>
    ensures { OnOk result (text.new.items ≡ text.old.items
        ++ printed_line (name.now ∷ codes "=" ∷ a.now ∷ (sign ∷ []) ∷ b.now ∷ [])) }
{
    text.extend_from_slice(name)?;
    add_word(text, b"=")?;
    add_word(text, a)?;
    add_word(text, &[sign])?;
    add_word(text, b)?;
    Ok(text.push(b'\n')?)
}
