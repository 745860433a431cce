//! What the lines so far mean for the order of the next ones.
ghost use Rattle.std.specs.Prelude.{◌≡◌};
ghost use Rattle.ghes_script.specs.Sofar.{start, after, is_in_order};

use crate::What;

/// What the lines so far have said.
#[derive(Clone, Copy, Debug)]
pub(crate) struct Sofar {
    /// Whether there was a command.
    pub commands: bool,
    /// Whether there was a line `serve`.
    pub served: bool,
    /// How many contexts there are.
    pub contexts: u8,
    /// The time, in nanoseconds.
    pub clock: u64,
}

impl Sofar {
    /// Before the first line.
    pub fn start() -> Sofar
        ensures { result ≡ start }
    {
        Sofar {
            commands: false,
            served: false,
            contexts: 1,
            clock: 0,
        }
    }

    /// Whether a line may come next.
    pub fn lets_in(&self, what: &What) -> bool
        ensures { result ≡ is_in_order self.now what.now }
    {
        match *what {
            What::Contexts(_) => !self.commands && !self.served,
            What::Slots(_)
            | What::Serve(..)
            | What::AckCell(..)
            | What::Available(_)
            | What::Busy(_)
            | What::Status(_)
            | What::Route(..) => !self.commands,
            What::Clock(time) => self.clock <= time,
            _ => true,
        }
    }

    /// With one line more.
    pub fn after(self, what: &What) -> Sofar
        ensures { result ≡ after self what.now }
    {
        match *what {
            What::Contexts(contexts) => Sofar { contexts, ..self },
            What::Serve(..) => Sofar {
                served: true,
                ..self
            },
            What::Slots(_)
            | What::AckCell(..)
            | What::Available(_)
            | What::Busy(_)
            | What::Status(_)
            | What::Route(..) => self,
            What::Clock(clock) => Sofar {
                commands: true,
                clock,
                ..self
            },
            _ => Sofar {
                commands: true,
                ..self
            },
        }
    }
}
