//! What a statement of a unit does to the draft of a plan (pf.conf(5)).
ghost use Rattle.std.specs.Prelude.{◌≡◌, ℕ, ◌<◌, ◌≤◌, [], Some, true, length, IfOk, IfSome};
ghost use Rattle.pf_decl.specs.Decls.{place_of};
ghost use Rattle.pf_grammar.specs.Bytes.{HasBytes, symbols_have_bytes};
ghost use Rattle.pf_grammar.specs.Late.{late_of};
ghost use Rattle.pf_lexer.specs.Calls.{AreNumbered};
ghost use Rattle.pf_lexer.specs.Reads.{GoesOn};
ghost use Rattle.pf_plan.specs.Drafts.{is_in_body, with_rules};
ghost use Rattle.pf_fault.specs.Stops.{StopWithin};
ghost use Rattle.pf_plan.specs.Numbered.{PlacesWithin};
ghost use Rattle.pf_fault.specs.Order as order;
ghost use Rattle.pf_fault.specs.Order.{first_of};
ghost use Rattle.pf_fault.specs.Stops.{UnlessShort, unread_in};
ghost use Rattle.pf_entries.specs.Tables.{has_words};
ghost use Rattle.pf_source.specs.Asks.{Asks};
ghost use Rattle.pf_source.specs.Told.{Told, file_of};
ghost use Rattle.pf_syntax.specs.Symbols.{symbols};
ghost use Rattle.pf_load.specs.Statements as says;
ghost use Rattle.pf_load.specs.Anchors as reach_says;
ghost use Rattle.pf_load.specs.Anchors.{entered, reach_fault};
ghost use Rattle.pf_load.specs.Statements.{Anchored, Expanded, RuleComes, SaidComes, unless};
ghost use Rattle.pf_load.specs.Fit.{StaysFit};
ghost use Rattle.pf_load.specs.Answers.{AwaitsMore, DeclHasWords, DeclMay, DeclStandsMay, StatementMay, TableMay};

use crate::reach::{self, Reach};
use crate::way::{Way, way_of};
use pf_base::{FaultKind, List, Place, Text};
use pf_decl::{Decl, TableForm, parse_decl, tables_have_words};
use pf_entries::read_table;
use pf_expand::{Defaults, Order, expand, expanded_rules_are_written};
use pf_fault::{Fault, Stop, first_of};
use pf_form::{Draft as Said, Head};
use pf_grammar::{FormFault, forms_have_words, late_of, read_draft};
use pf_host::Facts;
use pf_lexer::{Reads, Statement, Token};
use pf_parts::Call;
use pf_plan::Draft;
use pf_rule::Rule;
use pf_source::Files;
use pf_word::ExpandFault;
use std::alloc::Global;

// Where a statement begins.
fn place_of(tokens: &[Token]) -> Place
    ensures { result ≡ place_of tokens.now }
{
    match tokens.first() {
        None => Place { file: 0, line: 0 },
        Some(token) => token.place,
    }
}

fn stop_at(kind: FaultKind, place: Place) -> Stop
    ensures { result ≡ says.stop_at kind place }
{
    Stop::Fault(Fault { kind, place })
}

// What a statement outside the grammar is refused for.
fn stop_of(fault: FormFault, place: Place) -> Stop
    ensures { result ≡ says.stop_of fault place }
{
    match fault {
        FormFault::Syntax => stop_at(FaultKind::Syntax, place),
        FormFault::Unsupported(word) => stop_at(FaultKind::Unsupported(word), place),
        FormFault::StateOptions => stop_at(FaultKind::StateOptions, place),
        FormFault::AnchorEffect => stop_at(FaultKind::AnchorEffect, place),
        FormFault::BadFlags => stop_at(FaultKind::BadFlags, place),
        FormFault::NoMemory => Stop::NoMemory,
    }
}

fn fault_at(kind: FaultKind, place: Place) -> Option<Fault>
    ensures { result ≡ Some (order.fault_at kind place) }
{
    Some(Fault { kind, place })
}

// A late fault of a form.
fn late_fault(late: FormFault, place: Place) -> Option<Fault>
    ensures { result ≡ says.late_fault late place }
{
    match late {
        FormFault::Syntax => fault_at(FaultKind::Syntax, place),
        FormFault::Unsupported(word) => fault_at(FaultKind::Unsupported(word), place),
        FormFault::StateOptions => fault_at(FaultKind::StateOptions, place),
        FormFault::AnchorEffect => fault_at(FaultKind::AnchorEffect, place),
        FormFault::BadFlags => fault_at(FaultKind::BadFlags, place),
        FormFault::NoMemory => None,
    }
}

// A late fault of a form, where it has one.
fn late_at(late: Option<FormFault>, place: Place) -> Option<Fault>
    ensures { result ≡ says.late_at late place }
{
    match late {
        None => None,
        Some(late) => late_fault(late, place),
    }
}

fn order_of(said: &Said) -> Order
    ensures { result ≡ says.order_of said.now }
{
    Order {
        group_first: said.group_first,
        rdr_first: said.rdr_first,
    }
}

fn defaults_of(draft: &Draft) -> Defaults
    ensures { result ≡ says.defaults_of draft.now.policies }
{
    Defaults {
        block: draft.policies.block,
        bound: draft.policies.bound,
    }
}

// Lays rules on a draft, where no fault decides; what follows goes where the statement leads.
fn lay_rules(
    alloc: Global,
    draft: Draft,
    said: &Said,
    place: Place,
    fault: Option<Fault>,
    rules: List<Rule>,
    reach: &Reach,
    nameless: bool,
) -> Result<Draft, Stop>
    ensures laid { UnlessShort (λ answer. answer ≡ unless (first_of (first_of (says.late_at (late_of said.now) place) fault) (reach_fault reach.now place)) (entered (with_rules draft rules said.now.form.params.queue place) reach.now place nameless)) result }
    ensures within { (count : ℕ) → place.file < count → IfSome fault (λ one. one.place.file < count) → StopWithin count result }
    ensures places { (count : ℕ) → place.file < count → PlacesWithin count draft → IfOk result (PlacesWithin count) }
    ensures reads { unread_in result ≡ [] }
    ensures awaits { IfOk result (AwaitsMore draft) }
{
    let before = first_of(late_at(late_of(said), place), fault);
    match first_of(before, reach::reach_fault(reach, place)) {
        Some(fault) => Err(Stop::Fault(fault)),
        None => {
            let draft = draft.with_rules(rules, &said.form.params.queue, place)?;
            let draft = reach::entered(alloc, draft, reach, place, nameless)?;
            Ok(draft)
        }
    }
}

// Expands a form, whose rules have this call, and lays its rules on a draft; what follows goes where the statement leads.
fn take_rules(
    alloc: Global,
    facts: &Facts,
    draft: Draft,
    said: &Said,
    place: Place,
    call: &Call,
    reach: &Reach,
    nameless: bool,
) -> Result<Draft, Stop>
    requires { HasBytes said.now.form }
    ensures means { UnlessShort (Expanded facts.now draft said.now place call.now reach.now nameless) result }
    ensures within { (count : ℕ) → place.file < count → StopWithin count result }
    ensures places { (count : ℕ) → place.file < count → PlacesWithin count draft → IfOk result (PlacesWithin count) }
    ensures reads { unread_in result ≡ [] }
    ensures awaits { IfOk result (AwaitsMore draft) }
{
    let room = draft.room();
    let defaults = defaults_of(&draft);
    match expand(
        alloc,
        &said.form,
        call,
        order_of(said),
        facts,
        &defaults,
        room,
    ) {
        Ok(rules) => lay_rules(alloc, draft, said, place, None, rules, reach, nameless),
        Err(ExpandFault::Kind(kind)) => {
            let fault = Some(Fault { kind, place });
            lay_rules(
                alloc,
                draft,
                said,
                place,
                fault,
                List::new(alloc),
                reach,
                nameless,
            )
        }
        Err(ExpandFault::NoMemory) => Err(Stop::NoMemory),
    }
}

// Lays an anchor on a draft, and opens its body.
fn take_anchor(
    alloc: Global,
    facts: &Facts,
    draft: Draft,
    said: &Said,
    place: Place,
    name: &Option<Text>,
    body: bool,
) -> Result<Draft, Stop>
    requires { HasBytes said.now.form }
    ensures means { UnlessShort (Anchored facts.now draft said.now place name.now body) result }
    ensures within { (count : ℕ) → place.file < count → StopWithin count result }
    ensures places { (count : ℕ) → place.file < count → PlacesWithin count draft → IfOk result (PlacesWithin count) }
    ensures reads { unread_in result ≡ [] }
    ensures awaits { IfOk result (AwaitsMore draft) }
{
    let called = reach::call_of(alloc, &draft, name)?;
    let reach = reach::reach_of(&draft, body, &called);
    let call = reach::call_of_rules(&called);
    take_rules(
        alloc,
        facts,
        draft,
        said,
        place,
        &call,
        &reach,
        name.is_none(),
    )
}

// Keeps a file for an anchor.
fn take_load(
    alloc: Global,
    draft: Draft,
    place: Place,
    name: &Text,
    file: &Text,
) -> Result<Draft, Stop>
    ensures means { UnlessShort (λ answer. answer ≡ says.load_laid draft place (reach_says.reach_of draft true (reach_says.named_call name.now)) file.now) result }
    ensures within { (count : ℕ) → place.file < count → StopWithin count result }
    ensures places { (count : ℕ) → place.file < count → PlacesWithin count draft → IfOk result (PlacesWithin count) }
    ensures reads { unread_in result ≡ [] }
    ensures awaits { IfOk result (AwaitsMore draft) }
{
    let reach = reach::reach_of(&draft, true, &reach::named_call(name));
    match first_of(
        reach::load_fault(&draft, place),
        reach::reach_fault(&reach, place),
    ) {
        Some(fault) => Err(Stop::Fault(fault)),
        None => {
            let file = List::copy_of(alloc, file.items())?;
            let draft = reach::awaiting(draft, &reach, file)?;
            Ok(draft)
        }
    }
}

// Lays what a form says on a draft.
fn take_said(
    alloc: Global,
    facts: &Facts,
    draft: Draft,
    said: &Said,
    place: Place,
) -> Result<Draft, Stop>
    requires { HasBytes said.now.form }
    ensures means { UnlessShort (SaidComes facts.now draft said.now place said.now.form.head) result }
    ensures within { (count : ℕ) → place.file < count → StopWithin count result }
    ensures places { (count : ℕ) → place.file < count → PlacesWithin count draft → IfOk result (PlacesWithin count) }
    ensures reads { unread_in result ≡ [] }
    ensures awaits { IfOk result (AwaitsMore draft) }
{
    match &said.form.head {
        Head::Pass | Head::Block(_) | Head::Match | Head::Antispoof => {
            let call = reach::no_call();
            let here = Reach::Here;
            take_rules(alloc, facts, draft, said, place, &call, &here, false)
        }
        Head::Anchor { name, body } => take_anchor(alloc, facts, draft, said, place, name, *body),
        Head::LoadAnchor { name, file } => take_load(alloc, draft, place, name, file),
    }
}

// Lays a rule, an antispoof, an anchor or the load of one on a draft.
fn take_rule(
    alloc: Global,
    facts: &Facts,
    draft: Draft,
    tokens: &[Token],
    body: bool,
) -> Result<Draft, Stop>
    requires { symbols_have_bytes (symbols tokens.now) ≡ true }
    ensures means { UnlessShort (RuleComes facts.now tokens.now body draft) result }
    ensures within { (count : ℕ) → (place_of tokens.now).file < count → StopWithin count result }
    ensures places { (count : ℕ) → (place_of tokens.now).file < count → PlacesWithin count draft → IfOk result (PlacesWithin count) }
    ensures reads { unread_in result ≡ [] }
    ensures awaits { IfOk result (AwaitsMore draft) }
{
    forms_have_words();
    let place = place_of(tokens);
    match read_draft(alloc, tokens, body) {
        Ok(said) => take_said(alloc, facts, draft, &said, place),
        Err(fault) => Err(stop_of(fault, place)),
    }
}

// Reads a table with its files, and lays it on a draft.
fn take_table<F: Files>(
    alloc: Global,
    files: &mut F,
    reads: &mut Reads,
    facts: &Facts,
    draft: Draft,
    form: TableForm,
    place: Place,
) -> Result<Draft, Stop>
    requires words { has_words form ≡ true }
    requires place { place.file < length reads.old.names }
    ensures means { Told (F.tells files.old).held (λ held. TableMay (file_of held) facts.now draft form place reads.old result reads.new) }
    ensures asks { Asks (unread_in result) (F.tells files.old) (F.tells files.new) }
    ensures grows { GoesOn reads.old.names reads.new.names }
    ensures left { reads.new.left ≤ reads.old.left }
    ensures within { StopWithin (length reads.new.names) result }
    ensures places { PlacesWithin (length reads.old.names) draft → IfOk result (PlacesWithin (length reads.new.names)) }
    ensures awaits { IfOk result (AwaitsMore draft) }
    ensures fit { IfOk result (StaysFit draft) }
{
    if draft.is_in_body() {
        return Err(stop_at(FaultKind::NotInAnchor, place));
    }
    let tables = draft.here.own.tables.items();
    match read_table(alloc, files, reads, facts, tables, form, place) {
        Ok(table) => {
            let draft = draft.with_table(table)?;
            Ok(draft)
        }
        Err(stop) => Err(stop),
    }
}

// Lays a declaration on a draft.
fn take_decl<F: Files>(
    alloc: Global,
    files: &mut F,
    reads: &mut Reads,
    facts: &Facts,
    draft: Draft,
    decl: Decl,
    place: Place,
) -> Result<Draft, Stop>
    requires words { DeclHasWords decl }
    requires place { place.file < length reads.old.names }
    ensures means { Told (F.tells files.old).held (λ held. DeclStandsMay (file_of held) facts.now draft place reads.old decl result reads.new) }
    ensures asks { Asks (unread_in result) (F.tells files.old) (F.tells files.new) }
    ensures grows { GoesOn reads.old.names reads.new.names }
    ensures left { reads.new.left ≤ reads.old.left }
    ensures within { StopWithin (length reads.new.names) result }
    ensures places { PlacesWithin (length reads.old.names) draft → IfOk result (PlacesWithin (length reads.new.names)) }
    ensures awaits { IfOk result (AwaitsMore draft) }
    ensures fit { IfOk result (StaysFit draft) }
{
    match decl {
        Decl::Table(form) => take_table(alloc, files, reads, facts, draft, form, place),
        Decl::Set(lines) => {
            if !draft.is_in_main() {
                return Err(stop_at(FaultKind::NotInAnchor, place));
            }
            let draft = draft.with_lines(lines)?;
            Ok(draft)
        }
        Decl::Queue(mut queue) => {
            if !draft.is_in_main() {
                return Err(stop_at(FaultKind::NotInAnchor, place));
            }
            queue.place = place;
            let draft = draft.with_queue(queue)?;
            Ok(draft)
        }
    }
}

// Reads a declaration, and lays it on a draft.
fn take_declaration<F: Files>(
    alloc: Global,
    files: &mut F,
    reads: &mut Reads,
    facts: &Facts,
    draft: Draft,
    tokens: &[Token],
    body: bool,
) -> Result<Draft, Stop>
    requires words { symbols_have_bytes (symbols tokens.now) ≡ true }
    requires place { (place_of tokens.now).file < length reads.old.names }
    ensures means { Told (F.tells files.old).held (λ held. DeclMay (file_of held) facts.now tokens.now body draft reads.old result reads.new) }
    ensures asks { Asks (unread_in result) (F.tells files.old) (F.tells files.new) }
    ensures grows { GoesOn reads.old.names reads.new.names }
    ensures left { reads.new.left ≤ reads.old.left }
    ensures within { StopWithin (length reads.new.names) result }
    ensures places { PlacesWithin (length reads.old.names) draft → IfOk result (PlacesWithin (length reads.new.names)) }
    ensures awaits { IfOk result (AwaitsMore draft) }
    ensures fit { IfOk result (StaysFit draft) }
{
    tables_have_words();
    let place = place_of(tokens);
    match parse_decl(alloc, tokens, body) {
        Ok(decl) => take_decl(alloc, files, reads, facts, draft, decl, place),
        Err(fault) => Err(stop_of(fault, place)),
    }
}

// Closes a body.
fn take_close(draft: Draft, place: Place) -> Result<Draft, Stop>
    ensures means { UnlessShort (λ answer. answer ≡ says.close_in (is_in_body draft) draft place) result }
    ensures within { (count : ℕ) → place.file < count → StopWithin count result }
    ensures places { (count : ℕ) → PlacesWithin count draft → IfOk result (PlacesWithin count) }
    ensures reads { unread_in result ≡ [] }
    ensures awaits { IfOk result (AwaitsMore draft) }
{
    if !draft.is_in_body() {
        return Err(stop_at(FaultKind::StrayClose, place));
    }
    let draft = draft.closed()?;
    Ok(draft)
}

/// Lays a statement on a draft: the rules of a rule, an antispoof or an anchor, with the ruleset that its body fills, a file for an
/// anchor, the end of a body, a table with its files, settings or a queue. Of several faults the kind decides that stands first in
/// the order of [`FaultKind`].
pub(crate) fn take_statement<F: Files>(
    alloc: Global,
    files: &mut F,
    reads: &mut Reads,
    facts: &Facts,
    draft: Draft,
    statement: &Statement,
) -> Result<Draft, Stop>
    requires words { symbols_have_bytes (symbols statement.now.tokens) ≡ true }
    requires places { AreNumbered (length reads.old.names) statement.now.tokens }
    ensures means { Told (F.tells files.old).held (λ held. StatementMay (file_of held) facts.now statement.now draft reads.old result reads.new) }
    ensures asks { Asks (unread_in result) (F.tells files.old) (F.tells files.new) }
    ensures grows { GoesOn reads.old.names reads.new.names }
    ensures left { reads.new.left ≤ reads.old.left }
    ensures within { StopWithin (length reads.new.names) result }
    ensures places { PlacesWithin (length reads.old.names) draft → IfOk result (PlacesWithin (length reads.new.names)) }
    ensures awaits { IfOk result (AwaitsMore draft) }
    ensures fit { IfOk result (StaysFit draft) }
{
    expanded_rules_are_written();
    let tokens = statement.tokens.items();
    match way_of(tokens) {
        Way::Nothing => Ok(draft),
        Way::Closes => take_close(draft, place_of(tokens)),
        Way::Declares => {
            take_declaration(alloc, files, reads, facts, draft, tokens, statement.body)
        }
        Way::Rules => take_rule(alloc, facts, draft, tokens, statement.body),
    }
}
