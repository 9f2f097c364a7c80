//! What a gadget is checked for.

ghost use Rattle.std.specs.Prelude.{◌≡◌};
ghost use Rattle.mask_terms.specs.Tasks.{is_demo, leaks, task_named, task_word};

/// What a gadget is checked for.
#[derive(Clone, Copy, Debug, PartialEq, Eq, Drop)]
pub enum Task {
    /// Non-interference.
    Ni,
    /// Non-interference by the number of probes.
    Tni,
    /// Strong non-interference.
    Sni,
    /// Probe-isolating non-interference.
    Pini,
    /// Random probing composability.
    Rpc,
    /// Random probing expandability.
    Rpe,
    /// Strong non-interference of a multiplication that the program makes itself.
    Demo,
    /// Strong non-interference of a refreshing of shares that the program makes itself.
    DemoRefresh,
}

impl Task {
    /// The word by which a command line and a report name the task.
    pub fn word(self) -> &'static str
        ensures { result.now ≡ task_word self }
    {
        match self {
            Task::Ni => "ni",
            Task::Tni => "tni",
            Task::Sni => "sni",
            Task::Pini => "pini",
            Task::Rpc => "rpc",
            Task::Rpe => "rpe",
            Task::Demo => "demo",
            Task::DemoRefresh => "demo-refresh",
        }
    }

    /// The task of this word, or `None` where no task has it.
    pub fn named(word: &str) -> Option<Task>
        ensures { result ≡ task_named word.now }
    {
        match word {
            "ni" => Some(Task::Ni),
            "tni" => Some(Task::Tni),
            "sni" => Some(Task::Sni),
            "pini" => Some(Task::Pini),
            "rpc" => Some(Task::Rpc),
            "rpe" => Some(Task::Rpe),
            "demo" => Some(Task::Demo),
            "demo-refresh" => Some(Task::DemoRefresh),
            _ => None,
        }
    }

    /// Whether the task is one of random probing, where wires leak by chance.
    pub fn leaks(self) -> bool
        ensures { result ≡ leaks self }
    {
        matches!(self, Task::Rpc | Task::Rpe)
    }

    /// Whether the task is a demonstration, which reads no file and checks a gadget that the program makes.
    pub fn is_demo(self) -> bool
        ensures { result ≡ is_demo self }
    {
        matches!(self, Task::Demo | Task::DemoRefresh)
    }
}
