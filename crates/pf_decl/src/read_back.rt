//! Lines of settings that are read as they are shown (pf.conf(5), OPTIONS).
ghost use Rattle.std.specs.Prelude.{◌≡◌, ℕ, Bool, true, [], ◌∷◌, All, List, Option, map};
ghost use Rattle.pf_base.specs.declared.fault.Place.{Place};
ghost use Rattle.pf_token.specs.declared.cell.Cell.{Cell};
ghost use Rattle.pf_token.specs.declared.token.Lexeme.TheVariants as lexemes;
ghost use Rattle.pf_token.specs.declared.token.Token.{Token};
ghost use Rattle.pf_token.specs.Pieces.{Reads};
ghost use Rattle.pf_decl.specs.declared.form.Decl.TheVariants.{Set};
ghost use Rattle.pf_decl.specs.declared.form.OptionLine.{OptionLine};
ghost use Rattle.pf_decl.specs.declared.form.SetForm.{SetForm};
ghost use Rattle.pf_decl.specs.Decls.{IsDecl};
ghost use Rattle.pf_decl.specs.Lines.{line_of, set_text};
ghost use Rattle.pf_decl.specs.ReadBack.{ReadsAs, are_file_tokens, is_made};

/// A law. The line of a setting that a statement can make is read, wherever it stands and with any macros given, as the
/// declaration of that one setting; and so is each line of a declaration whose tokens a file can have, which are all the
/// tokens that texts have.
pub fn shown_lines_read_back()
    ensures settings { (values : List ℕ → Option (List ℕ)) (place : Place) (form : SetForm) → is_made form ≡ true →
        ReadsAs values place (set_text form) (Set (line_of form ∷ [])) }
    ensures declared { (values : List ℕ → Option (List ℕ)) (place : Place) (tokens : List Token) (body : Bool) (lines : List OptionLine) →
        are_file_tokens tokens ≡ true → IsDecl tokens body (Set lines) → All (λ line. ReadsAs values place line.text (Set (line ∷ []))) lines }
    ensures texts { (values : List ℕ → Option (List ℕ)) (cells : List Cell) (tokens : List Token) →
        Reads values cells (map lexemes.Token tokens) → are_file_tokens tokens ≡ true }
{}
