//! Forms as they are read from the tokens of a statement.
ghost use Rattle.std.specs.Prelude.{◌≡◌, ◌⊎◌, Bool, List, Ok, Err, Option, Some, None, IfOk, IfErr};
ghost use Rattle.pf_token.specs.declared.token.Token.{Token as AnyToken};
ghost use Rattle.pf_syntax.specs.declared.fault.FormFault.{FormFault as AnyFault};
ghost use Rattle.pf_form.specs.declared.form.Draft.{Draft as AnyDraft};
ghost use Rattle.pf_form.specs.declared.form.RuleForm.{RuleForm as AnyForm};
ghost use Rattle.pf_grammar.specs.Forms.{HasForm, IsDraft, RefusesDraft, RefusesForm};

use crate::late::late_of;
use crate::statement::take_statement;
use pf_form::{Draft, RuleForm};
use pf_syntax::{Cursor, FormFault, Stop, form_fault};
use pf_token::Token;
use std::alloc::Global;

/// A form, and the first of the faults that only count behind those of its words.
#[derive(Debug, Drop)]
pub struct FormRead {
    pub form: RuleForm,
    pub late: Option<FormFault>,
}

/// The form of a rule, an antispoof or a load of an anchor, with what else a load must know of the statement. The faults
/// are `Unsupported` and `Syntax`, where there is none, and `NoMemory` (pf.conf(5), GRAMMAR).
pub fn read_draft(alloc: Global, tokens: &[Token], body: bool) -> Result<Draft, FormFault>
    ensures found { IfOk result (λ draft. IsDraft tokens.now body draft) }
    ensures only { (draft : AnyDraft) → IsDraft tokens.now body draft → (result ≡ Ok draft) ⊎ (result ≡ Err FormFault.NoMemory) }
    ensures fault { IfErr result (λ fault. RefusesDraft tokens.now body fault) }
{
    let mut cursor = Cursor::new(alloc, tokens);
    match take_statement(&mut cursor, body) {
        Err(Stop::NoMemory) => Err(FormFault::NoMemory),
        Err(Stop::Outside) => Err(form_fault(tokens)),
        Ok(draft) => {
            if cursor.is_at_end() {
                Ok(draft)
            } else {
                Err(form_fault(tokens))
            }
        }
    }
}

/// The form of a statement, and beside it the first of `BadFlags`, `StateOptions` and `AnchorEffect` that it has. Of an option
/// that stands twice the form has the first. The faults are `Unsupported` and `Syntax`, where there is no form, and
/// `NoMemory`.
pub fn read_form(alloc: Global, tokens: &[Token], body: bool) -> Result<FormRead, FormFault>
    ensures found { IfOk result (λ read. HasForm tokens.now body read.form read.late) }
    ensures fault { IfErr result (λ fault. RefusesDraft tokens.now body fault) }
{
    let draft = read_draft(alloc, tokens, body)?;
    let late = late_of(&draft);
    Ok(FormRead {
        form: draft.form,
        late,
    })
}

/// The form of a statement without a fault. `BadFlags`, `StateOptions` and `AnchorEffect` come exactly where [`read_form`]
/// has them beside the form.
pub fn parse_rule(alloc: Global, tokens: &[Token], body: bool) -> Result<RuleForm, FormFault>
    ensures found { IfOk result (λ form. HasForm tokens.now body form None) }
    ensures fault { IfErr result (λ fault. RefusesForm tokens.now body fault) }
{
    let FormRead { form, late } = read_form(alloc, tokens, body)?;
    match late {
        None => Ok(form),
        Some(fault) => Err(fault),
    }
}

/// A law: tokens have at most one form, with at most one late fault beside it.
pub fn tokens_have_one_form()
    ensures { (tokens : List AnyToken) (body : Bool) (form other : AnyForm) (late last : Option AnyFault) → HasForm tokens body form late → HasForm tokens body other last → (form ≡ other) × (late ≡ last) }
{}
