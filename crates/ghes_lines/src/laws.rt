//! Laws over the definitions, each the contract of a function that does nothing.
ghost use Rattle.std.specs.Prelude.{◌≡◌, List, length};
ghost use Rattle.std.specs.List.{AllByRecursion};
ghost use Rattle.ghes_script.specs.Setup.{Setup};
ghost use Rattle.ghes_script.specs.Sofar.{start};
ghost use Rattle.ghes_script.specs.Sound.{AreAllowed};
ghost use Rattle.ghes_script.specs.declared.line.Line.{Line};
ghost use Rattle.ghes_lines.specs.Lines.{IsAllowed};
ghost use Rattle.ghes_lines.specs.declared.machine.Machine.{Machine};

/// The lines of a script that was read for the sources of a machine ask for nothing but what the machine allows.
pub fn a_script_asks_for_what_its_machine_allows()
    ensures { (setup : Setup) (machine : Machine) (lines : List Line) → length setup.names ≡ length machine.sources.items
        → AreAllowed setup start lines → AllByRecursion (λ line. IsAllowed machine line.what) lines }
{}
