//! Laws over the definitions, each the contract of a function that does nothing.
ghost use Rattle.std.specs.Prelude.{◌≡◌, ◌⊎◌, ℕ, List};
ghost use Rattle.ghes_script.specs.Cut.{AreLinesOf};
ghost use Rattle.ghes_script.specs.Script.{BadLine, IsScript, IsRefusedAt};
ghost use Rattle.ghes_script.specs.Setup.{Setup};
ghost use Rattle.ghes_script.specs.Sofar.{start};
ghost use Rattle.ghes_script.specs.Spelling.{MayCome, HasSpelling};
ghost use Rattle.ghes_script.specs.declared.sofar.Sofar.{Sofar};
ghost use Rattle.ghes_script.specs.declared.line.What.{What};
ghost use Rattle.ghes_script.specs.Sound.{AreAllowed, AreSettingsFirst, DoesNotFall};
ghost use Rattle.ghes_script.specs.declared.line.Line.{Line};

/// Bytes are lines of one list of texts. They are a script of one list of lines, or are refused at one line and for one
/// kind, and not both.
pub fn a_script_is_read_in_one_way()
    ensures one_cut { (bytes : List ℕ) (texts others : List (List ℕ))
        → AreLinesOf bytes texts → AreLinesOf bytes others → texts ≡ others }
    ensures same { (setup : Setup) (bytes : List ℕ) (lines others : List Line)
        → IsScript setup bytes lines → IsScript setup bytes others → lines ≡ others }
    ensures one_refusal { (setup : Setup) (bytes : List ℕ) (bad other : BadLine)
        → IsRefusedAt setup bytes bad → IsRefusedAt setup bytes other → bad ≡ other }
    ensures not_both { (setup : Setup) (bytes : List ℕ) (lines : List Line) (bad : BadLine)
        → IsScript setup bytes lines → IsRefusedAt setup bytes bad → ⊥ }
    ensures either { (setup : Setup) (bytes : List ℕ)
        → ((lines : List Line) × IsScript setup bytes lines) ⊎ ((bad : BadLine) × IsRefusedAt setup bytes bad) }
{}

/// Each line of a script asks for what it may ask for behind those before it: its sources are known, and have a read ack
/// register where one is needed; its numbers lie in their ranges; a block has a size and a status; and it comes in order.
pub fn each_line_of_a_script_is_allowed()
    ensures { (setup : Setup) (bytes : List ℕ) (lines : List Line)
        → IsScript setup bytes lines → AreAllowed setup start lines }
{}

/// The settings of a script stand before its commands, and its time does not fall.
pub fn a_script_comes_in_order()
    ensures settings { (setup : Setup) (bytes : List ℕ) (lines : List Line)
        → IsScript setup bytes lines → AreSettingsFirst lines }
    ensures times { (setup : Setup) (bytes : List ℕ) (lines : List Line)
        → IsScript setup bytes lines → DoesNotFall 0 lines }
{}

/// Whatever may come behind the lines so far has a spelling: some text of a line asks for it.
pub fn what_may_come_has_a_spelling()
    ensures { (setup : Setup) (sofar : Sofar) (what : What) → MayCome setup sofar what → HasSpelling setup sofar what }
{}
