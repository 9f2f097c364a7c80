//! The texts of the demonstration gadgets.

ghost use Rattle.std.specs.Prelude.{◌≡◌, ◌≤◌, ◌<◌, ◌++◌, [], ◌∷◌, codes, flat_map, IfOk, OnOk};
ghost use Rattle.gadget_maker.specs.Limits.{least_demo_shares, most_demo_shares};
ghost use Rattle.gadget_maker.specs.Texts.{below, digit, isw_text, paired as pair, refresh_text};
ghost use Rattle.gadget_maker.specs.Texts.{random_of as random, running_sum, sum_steps, text_of};
ghost use Rattle.gadget_maker.specs.Rows.{masked_row, name_text, assignment_line, other as other_than};
ghost use Rattle.gadget_maker.specs.Rows.{product_row, random_row, sum_steps_from, sum_name as name_of_sum};

use crate::name::{Name, add_name, indexed, paired};
use mask_bytes::OutOfMemory;
use std::alloc::Global;

/// A demonstration gadget has at least this many shares.
pub const LEAST_DEMO_SHARES: u8 = 2;

/// A demonstration gadget has at most this many shares.
pub const MOST_DEMO_SHARES: u8 = 5;

/// The text of the multiplication of Ishai, Sahai and Wagner (CRYPTO 2003) of `n` shares.
pub fn isw(alloc: Global, n: u8) -> Result<Vec<u8>, OutOfMemory>
    requires some { least_demo_shares ≤ n }
    requires few { n ≤ most_demo_shares }
    ensures { IfOk result (λ text. text.items ≡ isw_text n) }
{
    let mut text = Vec::new(alloc);
    add_headers(&mut text, n, b" a b", b'c')?;
    add_products(&mut text, n)?;
    add_masked_products(&mut text, n)?;
    for i in 0..n {
        add_product_sum(&mut text, n, i)?;
    }
    Ok(text)
}

/// The text of a gadget that refreshes `n` shares of a secret, with a random for each pair of shares.
pub fn refresh(alloc: Global, n: u8) -> Result<Vec<u8>, OutOfMemory>
    requires some { least_demo_shares ≤ n }
    requires few { n ≤ most_demo_shares }
    ensures { IfOk result (λ text. text.items ≡ refresh_text n) }
{
    let mut text = Vec::new(alloc);
    add_headers(&mut text, n, b" a", b'd')?;
    for i in 0..n {
        add_share_sum(&mut text, n, i)?;
    }
    Ok(text)
}

// Adds the header lines, of which that of the inputs has these words.
fn add_headers(text: &mut Vec<u8>, n: u8, inputs: &[u8], output: u8) -> Result<(), OutOfMemory>
    requires { n ≤ most_demo_shares }
    ensures { OnOk result (text.new.items ≡ text.old.items ++ codes "#SHARES " ++ digit n ++ codes "\n#IN"
        ++ inputs.now ++ codes "\n#RANDOMS" ++ flat_map (random_row n) (below n) ++ codes "\n#OUT "
        ++ output ∷ 10 ∷ []) }
{
    text.extend_from_slice(b"#SHARES ")?;
    text.push(b'0' + n)?;
    text.extend_from_slice(b"\n#IN")?;
    text.extend_from_slice(inputs)?;
    text.extend_from_slice(b"\n#RANDOMS")?;
    add_randoms(text, n)?;
    text.extend_from_slice(b"\n#OUT ")?;
    text.push(output)?;
    Ok(text.push(b'\n')?)
}

// Adds the words of the randoms.
fn add_randoms(text: &mut Vec<u8>, n: u8) -> Result<(), OutOfMemory>
    requires { n ≤ most_demo_shares }
    ensures { OnOk result (text.new.items ≡ text.old.items ++ flat_map (random_row n) (below n)) }
{
    for i in 0..n {
        add_random_row(text, n, i)?;
    }
    Ok(())
}

// Adds the words of the randoms that share i has with later shares.
fn add_random_row(text: &mut Vec<u8>, n: u8, i: u8) -> Result<(), OutOfMemory>
    requires few { n ≤ most_demo_shares }
    requires share { i < n }
    ensures { OnOk result (text.new.items ≡ text.old.items ++ random_row n i) }
{
    for j in i + 1..n {
        add_random(text, i, j)?;
    }
    Ok(())
}

// Adds the word of a random.
fn add_random(text: &mut Vec<u8>, i: u8, j: u8) -> Result<(), OutOfMemory>
    requires first { i < 10 }
    requires second { j < 10 }
    ensures { OnOk result (text.new.items ≡ text.old.items ++ 32 ∷ pair (codes "r") i j) }
{
    text.push(b' ')?;
    add_name(text, paired(b'r', i, j))
}

// Adds the products of all pairs of shares.
fn add_products(text: &mut Vec<u8>, n: u8) -> Result<(), OutOfMemory>
    requires { n ≤ most_demo_shares }
    ensures { OnOk result (text.new.items ≡ text.old.items ++ flat_map (product_row n) (below n)) }
{
    for i in 0..n {
        add_product_row(text, n, i)?;
    }
    Ok(())
}

// Adds the products of share i of `a`.
fn add_product_row(text: &mut Vec<u8>, n: u8, i: u8) -> Result<(), OutOfMemory>
    requires few { n ≤ most_demo_shares }
    requires share { i < n }
    ensures { OnOk result (text.new.items ≡ text.old.items ++ product_row n i) }
{
    for j in 0..n {
        add_operation(
            text,
            paired(b'p', i, j),
            indexed(b'a', i),
            b'*',
            indexed(b'b', j),
        )?;
    }
    Ok(())
}

// Adds the masked products of all pairs of shares.
fn add_masked_products(text: &mut Vec<u8>, n: u8) -> Result<(), OutOfMemory>
    requires { n ≤ most_demo_shares }
    ensures { OnOk result (text.new.items ≡ text.old.items ++ flat_map (masked_row n) (below n)) }
{
    for i in 0..n {
        add_masked_row(text, n, i)?;
    }
    Ok(())
}

// Adds the masked products of share i with later shares.
fn add_masked_row(text: &mut Vec<u8>, n: u8, i: u8) -> Result<(), OutOfMemory>
    requires few { n ≤ most_demo_shares }
    requires share { i < n }
    ensures { OnOk result (text.new.items ≡ text.old.items ++ masked_row n i) }
{
    for j in i + 1..n {
        let masked = paired(b'u', i, j);
        add_operation(text, masked, paired(b'r', i, j), b'+', paired(b'p', i, j))?;
        add_operation(text, paired(b'r', j, i), masked, b'+', paired(b'p', j, i))?;
    }
    Ok(())
}

// The k-th of the numbers other than i.
fn other_than(i: u8, k: u8) -> u8
    requires { k < 10 }
    ensures { result ≡ other_than i k }
{
    if k < i { k } else { k + 1 }
}

// The name of the k-th sum of share i.
fn sum_name(n: u8, output: u8, i: u8, k: u8) -> Name
    requires few { n ≤ most_demo_shares }
    requires share { i < n }
    requires step { k < n }
    ensures { name_text result ≡ name_of_sum n (output ∷ []) i k }
{
    if k + 2 < n {
        paired(b's', i, other_than(i, k))
    } else {
        indexed(output, i)
    }
}

// Adds share i of the product, a running sum.
fn add_product_sum(text: &mut Vec<u8>, n: u8, i: u8) -> Result<(), OutOfMemory>
    requires few { n ≤ most_demo_shares }
    requires share { i < n }
    ensures { OnOk result (text.new.items ≡ text.old.items
        ++ text_of (running_sum (pair (codes "p") i i) (sum_steps_from n (codes "c") (pair (codes "r")) i 0))) }
{
    let mut sum = paired(b'p', i, i);
    for k in 0..n - 1 {
        let next = sum_name(n, b'c', i, k);
        add_operation(text, next, sum, b'+', paired(b'r', i, other_than(i, k)))?;
        sum = next;
    }
    Ok(())
}

// The random of a pair of shares.
fn random_of(i: u8, j: u8) -> Name
    requires first { i < 10 }
    requires second { j < 10 }
    ensures { name_text result ≡ random i j }
{
    if i < j {
        paired(b'r', i, j)
    } else {
        paired(b'r', j, i)
    }
}

// Adds share i of the refreshed secret, a running sum.
fn add_share_sum(text: &mut Vec<u8>, n: u8, i: u8) -> Result<(), OutOfMemory>
    requires few { n ≤ most_demo_shares }
    requires share { i < n }
    ensures { OnOk result (text.new.items ≡ text.old.items
        ++ text_of (running_sum (codes "a" ++ digit i) (sum_steps_from n (codes "d") random i 0))) }
{
    let mut sum = indexed(b'a', i);
    for k in 0..n - 1 {
        let next = sum_name(n, b'd', i, k);
        add_operation(text, next, sum, b'+', random_of(i, other_than(i, k)))?;
        sum = next;
    }
    Ok(())
}

// Adds a line that assigns to a name, with a sign between two others.
fn add_operation(
    text: &mut Vec<u8>,
    name: Name,
    a: Name,
    sign: u8,
    b: Name,
) -> Result<(), OutOfMemory>
    ensures { OnOk result (text.new.items ≡ text.old.items
        ++ assignment_line (name_text name) (name_text a) sign (name_text b)) }
{
    add_name(text, name)?;
    text.extend_from_slice(b" = ")?;
    add_name(text, a)?;
    text.push(b' ')?;
    text.push(sign)?;
    text.push(b' ')?;
    add_name(text, b)?;
    Ok(text.push(b'\n')?)
}
