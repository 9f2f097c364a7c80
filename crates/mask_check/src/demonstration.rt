//! The file of a check: what the source gives, or what a demonstration makes.

ghost use Rattle.std.specs.Prelude.{◌≡◌, ◌≢◌, Err, MatchResult};
ghost use Rattle.mask_words.specs.Answers.{HasDemoShares};
ghost use Rattle.mask_check.specs.Demonstrations.{check_of};
ghost use Rattle.mask_check.specs.Ends.{reading_of};
ghost use Rattle.mask_check.specs.Decisions.{GetsFile, LacksFile};

use gadget_maker::{isw, refresh};
use gadget_text::MOST_FILE_BYTES;
use mask_bytes::{Source, read_whole};
use mask_words::Settings;
use report::{Status, Task};
use std::alloc::Global;

/// The check that settings ask for: a demonstration checks its file for strong non-interference.
pub(crate) fn check_of(settings: &Settings) -> Settings
    ensures { result ≡ check_of settings.now }
{
    if settings.task.is_demo() {
        Settings {
            task: Task::Sni,
            t: settings.size,
            ..*settings
        }
    } else {
        *settings
    }
}

/// The bytes of the file of a check, or why there are none. A demonstration reads nothing.
pub(crate) fn file_of<S: Source>(
    alloc: Global,
    settings: &Settings,
    source: &mut S,
) -> Result<Vec<u8>, Status>
    requires shares { HasDemoShares settings.now }
    ensures file { let reading = reading_of S.left S.faults source.old source.new in
        MatchResult result (λ bytes. GetsFile settings.now reading bytes.items) (LacksFile settings.now reading) }
    ensures faultless { result ≢ Err Status.ReadFault → S.faults source.new ≡ S.faults source.old }
{
    Ok(match settings.task {
        Task::Demo => isw(alloc, settings.t)?,
        Task::DemoRefresh => refresh(alloc, settings.t)?,
        _ => read_whole(alloc, source, MOST_FILE_BYTES)?,
    })
}
