//! The notions.

ghost use Rattle.std.specs.Prelude.{◌≡◌};
ghost use Rattle.notions.specs.Items.{has_columns};

use mask_bytes::OutOfMemory;

/// What a designer asks of the sets of at most `t` probes on a gadget.
#[derive(Clone, Copy, Debug, PartialEq, Eq, Drop)]
pub enum Notion {
    /// Non-interference: any of them are simulated from at most `t` shares of each input (Barthe et al., CCS 2016).
    Ni,
    /// Non-interference by the number of probes: from at most as many shares of each input as there are probes.
    Tni,
    /// Strong non-interference: from at most as many shares of each input as there are probes that are no shares of
    /// outputs (Barthe et al., CCS 2016).
    Sni,
    /// Probe-isolating non-interference: from the shares with the indices of the probed outputs, and with as many more
    /// indices as there are other probes (Cassiers and Standaert, IEEE TIFS 2020).
    Pini,
}

impl Notion {
    /// Whether it asks of columns, the shares with one index of all outputs, in place of the shares of outputs.
    pub(crate) fn has_columns(self) -> bool
        ensures { result ≡ has_columns self }
    {
        matches!(self, Notion::Pini)
    }
}

/// Why there is no query.
#[derive(Clone, Copy, Debug, PartialEq, Eq, Drop)]
pub enum NotionError {
    /// Strong non-interference speaks of gadgets with one output, and this one has two.
    SeveralOutputs,
    /// Memory ran out.
    OutOfMemory,
}

impl From<OutOfMemory> for NotionError {
    ghost use Rattle.notions.specs.declared.notion.NotionError.TheVariants as error;

    ghost from_gives = { λ _ e. e ≡ error.OutOfMemory };

    fn from(_error: OutOfMemory) -> NotionError {
        NotionError::OutOfMemory
    }
}
