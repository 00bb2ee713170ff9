//! Laws of the definitions: a caller of a law has its clauses.
ghost use Rattle.std.specs.Prelude.{◌≡◌, ℕ, Bool, true, List, map, Ok, Option, None};
ghost use Rattle.std.specs.List.{All};
ghost use Rattle.pf_base.specs.declared.fault.Place.{Place};
ghost use Rattle.pf_decl.specs.ReadBack.{is_policy};
ghost use Rattle.pf_expand.specs.Expansion.{Expands};
ghost use Rattle.pf_expand.specs.declared.order.Defaults.{Defaults};
ghost use Rattle.pf_expand.specs.declared.order.Order.{Order};
ghost use Rattle.pf_form.specs.declared.form.RuleForm.{RuleForm};
ghost use Rattle.pf_grammar.specs.Forms.{HasForm};
ghost use Rattle.pf_host.specs.Facts.{HostFacts};
ghost use Rattle.pf_host.specs.Meaning.{IsFactsText};
ghost use Rattle.pf_ops.specs.Numbers.{IsKept};
ghost use Rattle.pf_ops.specs.declared.numbers.Numbers.{Numbers};
ghost use Rattle.pf_parts.specs.declared.call.Call.{Call};
ghost use Rattle.pf_print.specs.RuleText.{rule_text};
ghost use Rattle.pf_print.specs.SetText.{set_text};
ghost use Rattle.pf_rule.specs.declared.rule.Rule.{Rule};
ghost use Rattle.pf_token.specs.Pieces.{Reads};
ghost use Rattle.pf_token.specs.declared.cell.Cell.{Cell};
ghost use Rattle.pf_token.specs.declared.token.Lexeme.TheVariants as lexemes;
ghost use Rattle.pf_token.specs.declared.token.Token.{Token};
ghost use Rattle.pf_word.specs.Numbers.{id_test, port_test};
ghost use Rattle.pf_word.specs.Words.{found};
ghost use Rattle.pf_word.specs.declared.number.IdKind.{IdKind};
ghost use Rattle.pf_reread.specs.Calls.{HasCall};
ghost use Rattle.pf_reread.specs.ReadBack.{ReadsAsRule};
ghost use Rattle.pf_reread.specs.SetBack.{ReadsAsTest};
ghost use Rattle.pf_reread.specs.TokenText.{are_read_tokens};
ghost use Rattle.pf_reread.specs.Written.{IsWritten};

use pf_addr::{printed_texts_are_one_word, printed_texts_read_back};
use pf_expand::expanded_rules_are_written;
use pf_ops::letters_of_flags_read_back;

/// A law. The text of a rule that a statement can come to has, wherever it stands and with any macros given, tokens that have a form
/// without a late fault; an anchor form's name is the text of the rule's call; and with any facts, the policies at a file's start
/// and the rule's call that form comes to this one rule (pf.conf(5), GRAMMAR).
pub fn written_rules_read_back()
    ensures { (values : List ℕ → Option (List ℕ)) (place : Place) (rule : Rule) → IsWritten rule → ReadsAsRule values place (rule_text rule) rule }
{
    printed_texts_read_back();
    printed_texts_are_one_word();
    letters_of_flags_read_back();
}

/// A law. The text of a set of ports, users or groups has, wherever it stands and with any macros given, tokens that are one
/// operator; and with any facts that operator is the same set (pf.conf(5), PARAMETERS, `port`, `user`, `group`).
pub fn printed_sets_read_back()
    ensures ports { (values : List ℕ → Option (List ℕ)) (place : Place) (numbers : Numbers) → IsKept 65535 numbers
        → ReadsAsTest values place (set_text 65535 numbers) (λ item. (facts : HostFacts) → port_test facts item ≡ found numbers) }
    ensures ids { (values : List ℕ → Option (List ℕ)) (place : Place) (numbers : Numbers) → IsKept 4294967295 numbers
        → ReadsAsTest values place (set_text 4294967295 numbers) (λ item. (facts : HostFacts) (kind : IdKind) → id_test facts kind item ≡ found numbers) }
{}

/// A law. Whatever macros are given, the tokens of a text are words and strings such as stand in the text, and single signs
/// (pf.conf(5), DESCRIPTION).
pub fn tokens_are_as_in_a_text()
    ensures { (values : List ℕ → Option (List ℕ)) (cells : List Cell) (tokens : List Token) → Reads values cells (map lexemes.Token tokens)
        → are_read_tokens tokens ≡ true }
{}

/// A law. What a statement of a file comes to is rules that a statement can come to: the statement's tokens have a form without a
/// late fault, an anchor's name says its call, the facts are those of a text, and the policy for plain blocks is one that can be set.
pub fn rules_of_statements_are_written()
    ensures { (tokens : List Token) (body : Bool) (form : RuleForm) (call : Call) (order : Order) (said : List ℕ) (facts : HostFacts) (defaults : Defaults) (room : ℕ) (rules : List Rule)
        → are_read_tokens tokens ≡ true → HasForm tokens body form None → HasCall form.head call → IsFactsText said facts → is_policy defaults.block ≡ true
        → Expands form call order facts defaults room (Ok rules) → All IsWritten rules }
{
    expanded_rules_are_written();
}

/// A law. Each rule that a statement of a file comes to reads back: its printed text has, wherever it stands and with any macros
/// given, tokens that have a form without a late fault; an anchor form's name is the text of the rule's call; and with any facts,
/// the policies at a file's start and the rule's call that form comes to this one rule. An anchor without a name isn't spoken of.
pub fn rules_of_statements_read_back()
    ensures { (tokens : List Token) (body : Bool) (form : RuleForm) (call : Call) (order : Order) (said : List ℕ) (facts : HostFacts) (defaults : Defaults) (room : ℕ) (rules : List Rule)
        → are_read_tokens tokens ≡ true → HasForm tokens body form None → HasCall form.head call → IsFactsText said facts → is_policy defaults.block ≡ true
        → Expands form call order facts defaults room (Ok rules)
        → (values : List ℕ → Option (List ℕ)) (place : Place) → All (λ rule. ReadsAsRule values place (rule_text rule) rule) rules }
{
    written_rules_read_back();
    rules_of_statements_are_written();
}
