//! A source in memory that never fails.
ghost use Rattle.std.specs.Prelude.{◌≡◌, ◌↔◌, ◌<◌, [], length, take, drop, min, IsOkAnd};

use crate::error::Failed;
use crate::source::Source;
use std::marker::Model;

/// A source over bytes in memory that gives as many as are asked for. Contracts see what is left.
#[derive(Debug, Drop)]
pub struct SureSource {
    bytes: Vec<u8>,
    at: usize,
}

impl Model for SureSource {
    ghost use Rattle.std.specs.Prelude.{ℕ, List, ◌≤◌, drop, length};

    ghost Value = { List ℕ };

    ghost view = { λ s. drop s.at s.bytes.items };

    ghost invariant = { λ s. s.at ≤ length s.bytes.items };
}

impl SureSource {
    /// A source over all of `bytes`.
    pub fn make(bytes: Vec<u8>) -> SureSource
        ensures { result ≡ bytes.items }
    {
        SureSource { bytes, at: 0 }
    }
}

impl Source for SureSource {
    ghost use Rattle.std.specs.Prelude.{Some};

    ghost left = { λ left. Some left };

    ghost faults = { λ _. 0 };

    fn read(&mut self, buf: &mut [u8]) -> Result<usize, Failed>
        requires { 0 < length buf.old }
        ensures count { IsOkAnd result (λ count. count ≡ min (length buf.new) (length self.old)) }
        ensures bytes { IsOkAnd result (λ count. take count buf.new ≡ take count self.old) }
        ensures rest { IsOkAnd result (λ count. self.new ≡ drop count self.old) }
        ensures end { IsOkAnd result (λ count. (count ≡ 0) ↔ (self.old ≡ [])) }
    {
        let count = (self.bytes.len() - self.at).min(buf.len());
        buf[..count].copy_from_slice(&self.bytes[self.at..self.at + count]);
        self.at += count;
        Ok(count)
    }
}
