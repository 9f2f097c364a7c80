//! The statuses of what the layers below refuse.

ghost use Rattle.std.specs.Prelude.{◌≡◌};
ghost use Rattle.mask_check.specs.Causes.{status_of_words};
ghost use Rattle.mask_check.specs.Decisions.{status_of_events, status_of_notion};

use mask_words::WordsError;
use notions::NotionError;
use report::{NotFor, Status};
use rp_events::RpError;

/// The status of refused words.
pub(crate) fn refused_words(error: WordsError) -> Status
    ensures { result ≡ status_of_words error }
{
    match error {
        WordsError::Usage(kind) => Status::Usage(kind),
        WordsError::SizeNotUsed => Status::SizeNotUsed,
        WordsError::OutOfMemory => Status::OutOfMemory,
    }
}

/// The status of a notion that doesn't suit a gadget.
pub(crate) fn refused_notion(error: NotionError) -> Status
    ensures { result ≡ status_of_notion error }
{
    match error {
        NotionError::SeveralOutputs => Status::NotForGadget(NotFor::SeveralOutputs),
        NotionError::OutOfMemory => Status::OutOfMemory,
    }
}

/// The status of a gadget that has no events.
pub(crate) fn refused_events(error: RpError) -> Status
    ensures { result ≡ status_of_events error }
{
    match error {
        RpError::ManyInputs => Status::NotForGadget(NotFor::ManyInputs),
        RpError::OrderTooLarge => Status::NotForGadget(NotFor::OrderTooLarge),
        RpError::ManyEvents(count) => Status::NotForGadget(NotFor::ManyEvents(count)),
        RpError::OutOfMemory => Status::OutOfMemory,
    }
}
