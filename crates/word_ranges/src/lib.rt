//! What the grammar of words and scripts lets through lies in its ranges: laws that a call cites which reads words.
#![tactic(auto)]

ghost use Rattle.std.specs.Prelude.{◌≡◌, ◌≤◌, ℕ, List, Some, Ok};
ghost use Rattle.std.specs.List.{AllByRecursion};
ghost use Rattle.vault_types.specs.declared.Command.{Command};
ghost use Rattle.vault_types.specs.declared.Line.{Line};
ghost use Rattle.vault_types.specs.Generator.{fill_lines};
ghost use Rattle.vault_types.specs.Words.{command_of, script_of};
ghost use Rattle.store_model.specs.Outputs.{AreApartLines};
ghost use Rattle.store_model.specs.Ranges.{IsCommandInRange, IsLineInRange};

/// The settings of a command are in their ranges.
pub fn commands_are_in_range()
    ensures { (words : List (List ℕ)) (c : Command) → command_of words ≡ Some c → IsCommandInRange c }
{}

/// The settings of each line of a script are in their ranges, no output is named twice, and none is a source.
pub fn scripts_are_in_range()
    ensures ranges { (text : List ℕ) (lines : List Line) → script_of text ≡ Ok lines
        → AllByRecursion IsLineInRange lines }
    ensures apart { (text : List ℕ) (lines : List Line) → script_of text ≡ Ok lines → AreApartLines lines }
{}

/// So they are of the script of `fill`.
pub fn fill_scripts_are_in_range()
    ensures ranges { (versions : ℕ) → AllByRecursion IsLineInRange (fill_lines versions) }
    ensures apart { (versions : ℕ) → versions ≤ 64 → AreApartLines (fill_lines versions) }
{}
