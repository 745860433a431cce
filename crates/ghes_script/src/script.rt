//! Reads a script whole.
ghost use Rattle.std.specs.Prelude.{◌≡◌, ◌<◌, ◌^◌, length, IfOk, IfErr};
ghost use Rattle.ghes_script.specs.Setup.{setup_of};
ghost use Rattle.ghes_script.specs.Script.{IsScript, Blames};

use crate::answer::{Answer, first_answer};
use crate::setup::Setup;
use crate::sofar::Sofar;
use crate::{Line, ScriptError, SourceName};
use std::alloc::Global;
use std::marker::Model;

/// A script that was read: its settings and commands, in their order. A contract sees the list of them.
#[derive(Debug, Drop)]
pub struct Script {
    lines: Vec<Line>,
}

impl Model for Script {
    ghost use Rattle.std.specs.Prelude.{List};
    ghost use Rattle.ghes_script.specs.declared.line.Line.{Line};

    ghost Value = { List Line };

    ghost view = { λ s. s.lines.items };
}

impl Script {
    /// Reads a script over these enabled sources, in their order, with an injection table or without one.
    ///
    /// The first bad line is refused, with the first kind that holds of it. Of two sources that share an id, the first is
    /// meant. Own choice: "The lines of a script" and "The kinds of a bad line" in docs/DECISIONS.md.
    pub fn read(
        alloc: Global,
        bytes: &[u8],
        names: &[SourceName],
        injection: bool,
    ) -> Result<Script, ScriptError>
        requires { length bytes.now < 2 ^ 32 }
        ensures found { IfOk result (λ script. IsScript (setup_of names.now injection) bytes.now script) }
        ensures refused { IfErr result (Blames (setup_of names.now injection) bytes.now) }
    {
        let setup = Setup::new(alloc, names, injection)?;
        let mut lines = Vec::new(alloc);
        let mut sofar = Sofar::start();
        let mut number = 0;
        let mut rest = bytes;
        while !rest.is_empty() {
            let (answer, after) = first_answer(alloc, &setup, sofar, rest)?;
            number += 1;
            rest = after;
            match answer {
                Answer::Skipped => continue,
                Answer::Asks(what) => {
                    sofar = sofar.after(&what);
                    lines.push(Line { number, what })?;
                }
                Answer::Bad(kind) => return Err(ScriptError::Line { line: number, kind }),
            }
        }
        Ok(Script { lines })
    }

    /// The settings and commands, in their order, without the lines that are skipped.
    pub fn lines(&self) -> &[Line]
        ensures { result.now ≡ self.now }
    {
        &self.lines
    }
}
