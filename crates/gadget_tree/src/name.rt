//! Names.

ghost use Rattle.std.specs.Prelude.{◌≡◌, ◌↔◌, ◌++◌, IfOk, IsTrue};

use std::alloc::{AllocError, Global};
use std::marker::Model;
use std::sync::ArcSlice;

/// The name of an input, an output or a variable, as the file writes it. Contracts see its bytes. Its copies share
/// them, since a name may be as long as a file.
#[derive(Drop)]
pub struct Name {
    bytes: ArcSlice<u8>,
}

impl Model for Name {
    ghost use Rattle.std.specs.Prelude.{List, ℕ};
    ghost use Rattle.std.specs.Arc.{arc_slice_items};

    ghost Value = { List ℕ };

    ghost view = { λ n. arc_slice_items n.bytes };
}

impl Clone for Name {
    ghost is_clone = { λ name copy. copy ≡ name };

    fn clone(&self) -> Result<Name, AllocError> {
        Ok(Name {
            bytes: self.bytes.clone()?,
        })
    }
}

impl Name {
    /// A copy of a word as a name.
    pub fn new(alloc: Global, word: &[u8]) -> Result<Name, AllocError>
        ensures { IfOk result (λ name. name ≡ word.now) }
    {
        Ok(Name {
            bytes: ArcSlice::from_slice(alloc, word)?,
        })
    }

    /// The name that is two words, one right after the other. Each is copied once.
    pub(crate) fn joined(alloc: Global, first: &[u8], second: &[u8]) -> Result<Name, AllocError>
        ensures { IfOk result (λ name. name ≡ first.now ++ second.now) }
    {
        let mut bytes = Vec::with_capacity(alloc, first.len() + second.len())?;
        bytes.extend_from_slice(first)?;
        bytes.extend_from_slice(second)?;
        Ok(Name {
            bytes: ArcSlice::from_vec(bytes)?,
        })
    }

    /// The bytes of the name.
    pub fn bytes(&self) -> &[u8]
        ensures { result.now ≡ self.now }
    {
        self.bytes.as_slice()
    }

    /// Whether a word is this name.
    pub(crate) fn is(&self, word: &[u8]) -> bool
        ensures { IsTrue result ↔ (self.now ≡ word.now) }
    {
        *self.bytes() == *word
    }
}
