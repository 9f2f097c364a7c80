//! What a task asks of a gadget.

ghost use Rattle.std.specs.Prelude.{◌≡◌};
ghost use Rattle.mask_check.specs.Questions.{asked_by};

use notions::Notion;
use report::Task;
use rp_events::Rp;

/// What a task asks of a gadget.
#[derive(Clone, Copy, Drop)]
pub(crate) enum Asked {
    /// Whether sets of probes break a notion.
    Notion(Notion),
    /// For which events of random probing tuples of leaking wires fail.
    Leaking(Rp),
}

/// What a task asks.
pub(crate) fn asked_by(task: Task) -> Asked
    ensures { result ≡ asked_by task }
{
    match task {
        Task::Ni => Asked::Notion(Notion::Ni),
        Task::Tni => Asked::Notion(Notion::Tni),
        Task::Sni => Asked::Notion(Notion::Sni),
        Task::Pini => Asked::Notion(Notion::Pini),
        Task::Rpc => Asked::Leaking(Rp::Rpc),
        Task::Rpe => Asked::Leaking(Rp::Rpe),
        Task::Demo | Task::DemoRefresh => Asked::Notion(Notion::Sni),
    }
}
