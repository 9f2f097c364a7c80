//! What each kind of step does where it is allowed.

ghost use Rattle.std.specs.Prelude.{◌≡◌, ◌≢◌, ◌^◌, ◌<◌, OnOk, length, slice_index, slice_index_or, slice_set};
ghost use Rattle.cover_core.specs.Effects.{knows, looks, opens, publishes, spent};

use crate::effects::{know, look, open, publish, spent_view};
use crate::state::View;
use mask_bytes::OutOfMemory;
use std::alloc::Global;

/// The seat loads a word of the table.
pub(crate) fn look_at(view: &mut View, words: &[u64], place: u32) -> Result<(), OutOfMemory>
    requires moves { view.old.moves < 2 ^ 63 }
    requires place { place < length words.now }
    ensures { OnOk result (view.new ≡ looks place (slice_index words.now place) view.old) }
{
    look(view, place, words[place as usize])
}

/// The seat moves the cursor on, unless it has moved since the seat saw it.
pub(crate) fn claim(view: &mut View, cursor: &mut u64, to: u64) -> Result<(), OutOfMemory>
    requires moves { view.old.moves < 2 ^ 63 }
    requires some { view.old.cursor < to }
    ensures cursor { cursor.old ≡ view.old.cursor → OnOk result (cursor.new ≡ to) }
    ensures opened { cursor.old ≡ view.old.cursor → OnOk result (view.new ≡ opens to view.old) }
    ensures same { cursor.old ≢ view.old.cursor → cursor.new ≡ cursor.old }
    ensures late { cursor.old ≢ view.old.cursor → OnOk result (view.new ≡ knows cursor.old view.old) }
{
    if *cursor == view.cursor {
        open(view, to)?;
        *cursor = to;
    } else {
        know(view, *cursor);
    }
    Ok(())
}

/// The seat stores a code at a place, where that is empty, else it loads what is there.
pub(crate) fn store(
    view: &mut View,
    words: &mut [u64],
    place: u32,
    code: u64,
) -> Result<(), OutOfMemory>
    requires moves { view.old.moves < 2 ^ 63 }
    requires place { place < length words.old }
    ensures word { slice_index words.old place ≡ 0 → OnOk result (words.new ≡ slice_set words.old place code) }
    ensures stored { slice_index words.old place ≡ 0 → OnOk result (view.new ≡ publishes place code view.old) }
    ensures same { slice_index words.old place ≢ 0 → words.new ≡ words.old }
    ensures looked { slice_index words.old place ≢ 0 →
        OnOk result (view.new ≡ looks place (slice_index words.old place) view.old) }
{
    if words[place as usize] == 0 {
        words[place as usize] = code;
        publish(view, place, code)
    } else {
        look_at(view, words, place)
    }
}

/// What a seat knows, which is spent from then on.
pub(crate) fn take_other(alloc: Global, views: &mut [View], other: usize) -> View
    requires { other < length views.old }
    ensures other { result ≡ slice_index_or views.old other result }
    ensures spent { views.new ≡ slice_set views.old other spent }
{
    std::mem::replace(&mut views[other], spent_view(alloc))
}
