//! What a load comes to, as lines. A plan is written part by part: the path, then a line for each rule (of more than nine their
//! number) and each table, `unfilled` behind one that neither braces nor a file fill; then, of a load into the main ruleset, `whole`
//! and a line for each option, skipped name and queue; then the level. A fault is its kind, the file and the line.
use pf_base::{Level, Name, NoMemory};
use pf_decl::{OptionLine, Queue};
use pf_load::{LoadFault, Part, Plan, Whole};
use pf_parts::put;
use pf_print::{put_option, put_queue, put_rule, put_table};
use pf_reply::{put_count, put_kind, put_path};
use pf_rule::Rule;
use pf_shelf::{TableDecl, TableFlags};

fn put_rules(out: &mut Vec<u8>, rules: &[Rule]) -> Result<(), NoMemory> {
    if rules.len() > 9 {
        put_count(out, rules.len() as u64)?;
        return put(out, b" rules\n");
    }
    for rule in rules {
        put_rule(out, rule)?;
        put(out, b"\n")?;
    }
    Ok(())
}

fn put_tables(out: &mut Vec<u8>, tables: &[TableDecl]) -> Result<(), NoMemory> {
    for table in tables {
        let flags = TableFlags {
            persist: table.persist,
            constant: table.constant,
            counters: table.counters,
        };
        put_table(out, &table.name, &flags, table.entries.items())?;
        if !table.filled {
            put(out, b" unfilled")?;
        }
        put(out, b"\n")?;
    }
    Ok(())
}

fn put_part(out: &mut Vec<u8>, part: &Part) -> Result<(), NoMemory> {
    put_path(out, &part.path)?;
    put(out, b"\n")?;
    put_rules(out, part.rules.items())?;
    put_tables(out, part.tables.items())
}

fn put_options(out: &mut Vec<u8>, options: &[OptionLine]) -> Result<(), NoMemory> {
    for line in options {
        put_option(out, line)?;
        put(out, b"\n")?;
    }
    Ok(())
}

fn put_skipped(out: &mut Vec<u8>, skipped: &[Name]) -> Result<(), NoMemory> {
    for name in skipped {
        put(out, name.bytes())?;
        put(out, b"\n")?;
    }
    Ok(())
}

fn put_queues(out: &mut Vec<u8>, queues: &[Queue]) -> Result<(), NoMemory> {
    for queue in queues {
        put_queue(out, queue)?;
        put(out, b"\n")?;
    }
    Ok(())
}

fn put_whole(out: &mut Vec<u8>, whole: &Whole) -> Result<(), NoMemory> {
    put(out, b"whole\n")?;
    put_options(out, whole.options.items())?;
    put_skipped(out, whole.skip.items())?;
    put_queues(out, whole.queues.items())
}

fn put_level(out: &mut Vec<u8>, level: Level) -> Result<(), NoMemory> {
    match level {
        Level::None => put(out, b"none\n"),
        Level::Basic => put(out, b"basic\n"),
        Level::Profile => put(out, b"profile\n"),
    }
}

fn put_plan(out: &mut Vec<u8>, plan: &Plan) -> Result<(), NoMemory> {
    for part in plan.parts.items() {
        put_part(out, part)?;
    }
    if let Some(whole) = &plan.whole {
        put_whole(out, whole)?;
    }
    put_level(out, plan.level)
}

fn put_fault(out: &mut Vec<u8>, fault: &LoadFault) -> Result<(), NoMemory> {
    match fault {
        LoadFault::File { kind, place, name } => {
            put_kind(out, kind)?;
            put(out, b" ")?;
            put(out, name.items())?;
            put(out, b":")?;
            put_count(out, u64::from(place.line))?;
            put(out, b"\n")
        }
        LoadFault::CannotRead { name } => {
            put(out, b"CannotRead ")?;
            put(out, name.items())?;
            put(out, b"\n")
        }
        LoadFault::NoMemory => Err(NoMemory),
    }
}

/// What a load comes to.
pub(crate) fn put_found(
    out: &mut Vec<u8>,
    found: &Result<Plan, LoadFault>,
) -> Result<(), NoMemory> {
    match found {
        Ok(plan) => put_plan(out, plan),
        Err(fault) => put_fault(out, fault),
    }
}

/// How many reads failed, where some did.
pub(crate) fn put_failed(out: &mut Vec<u8>, count: usize) -> Result<(), NoMemory> {
    if count == 0 {
        return Ok(());
    }
    put_count(out, count as u64)?;
    put(out, b" failed\n")
}
