//! What a line says, as words that spell it.
ghost use Rattle.std.specs.Prelude.{◌≡◌, ◌↔◌, ℕ, List, None, Some};
ghost use Rattle.pf_script.specs.Command.{command_of};
ghost use Rattle.pf_script.specs.Grammar.{IsLine};
ghost use Rattle.pf_script.specs.declared.command.Command.{Command as ScriptCommand};

use pf_base::text::cut_laws;

/// A law: a line says a command exactly where its words spell it; one that says none spells none.
pub fn a_line_says_what_it_spells()
    ensures some { (line : List ℕ) (said : ScriptCommand) → (command_of line ≡ Some said) ↔ IsLine line said }
    ensures none { (line : List ℕ) (said : ScriptCommand) → command_of line ≡ None → IsLine line said → ⊥ }
{
    cut_laws();
}

/// A law: no line spells two commands.
pub fn a_line_spells_one_command()
    ensures { (line : List ℕ) (a b : ScriptCommand) → IsLine line a → IsLine line b → a ≡ b }
{
    cut_laws();
}
