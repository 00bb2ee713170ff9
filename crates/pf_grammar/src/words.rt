//! A law on the words of forms.
ghost use Rattle.std.specs.Prelude.{◌≡◌, Bool, List, Option, true};
ghost use Rattle.pf_token.specs.declared.token.Token.{Token as AnyToken};
ghost use Rattle.pf_syntax.specs.Symbols.{symbols};
ghost use Rattle.pf_syntax.specs.declared.fault.FormFault.{FormFault as AnyFault};
ghost use Rattle.pf_form.specs.declared.form.RuleForm.{RuleForm as AnyForm};
ghost use Rattle.pf_grammar.specs.Bytes.{HasBytes, symbols_have_bytes};
ghost use Rattle.pf_grammar.specs.Forms.{HasForm};

/// A law: where each word of the tokens has a byte, so has each word of the form whose meaning is asked for.
pub fn forms_have_words()
    ensures { (tokens : List AnyToken) (body : Bool) (form : AnyForm) (late : Option AnyFault) → symbols_have_bytes (symbols tokens) ≡ true → HasForm tokens body form late → HasBytes form }
{}
