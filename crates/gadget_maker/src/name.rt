//! The names of variables.

ghost use Rattle.std.specs.Prelude.{◌≡◌, ◌<◌, ◌++◌, [], ◌∷◌, OnOk};
ghost use Rattle.gadget_maker.specs.Texts.{indexed, paired};
ghost use Rattle.gadget_maker.specs.Rows.{name_text};

use mask_bytes::OutOfMemory;

/// The name of a variable: a letter, and the digits of one index or two.
#[derive(Clone, Copy)]
pub(crate) struct Name {
    pub stem: u8,
    pub index: u8,
    pub other: Option<u8>,
}

/// The name with one index.
pub(crate) fn indexed(stem: u8, i: u8) -> Name
    requires { i < 10 }
    ensures { name_text result ≡ indexed (stem ∷ []) i }
{
    Name {
        stem,
        index: b'0' + i,
        other: None,
    }
}

/// The name with two indices.
pub(crate) fn paired(stem: u8, i: u8, j: u8) -> Name
    requires first { i < 10 }
    requires second { j < 10 }
    ensures { name_text result ≡ paired (stem ∷ []) i j }
{
    Name {
        stem,
        index: b'0' + i,
        other: Some(b'0' + j),
    }
}

/// Adds a name.
pub(crate) fn add_name(text: &mut Vec<u8>, name: Name) -> Result<(), OutOfMemory>
    ensures { OnOk result (text.new.items ≡ text.old.items ++ name_text name) }
{
    text.push(name.stem)?;
    text.push(name.index)?;
    if let Some(digit) = name.other {
        text.push(digit)?;
    }
    Ok(())
}
