//! What is generated from a number.
ghost use Rattle.std.specs.Prelude.{◌≡◌, ◌*◌, OnOk, IfOk};
ghost use Rattle.pf_gen.specs.Draws.{after};
ghost use Rattle.pf_gen.specs.Texts.{config_of, record_text, records_from, records_of, rules_text};

use crate::content::Generated;
use crate::texts::{put_record, put_rule};
use pf_base::{List, NoMemory, Text};
use pf_parts::put;
use std::alloc::Global;

const RULES: usize = 2_000;

const RECORDS: usize = 5_000;

// The lines of so many rules behind `block all`.
fn rules_of(alloc: Global, number: &mut u32, many: usize) -> Result<Vec<u8>, NoMemory>
    ensures text { IfOk result (λ r. r.items ≡ rules_text number.old many) }
    ensures behind { OnOk result (number.new ≡ after number.old (7 * many)) }
{
    let mut out = Vec::new(alloc);
    put(&mut out, b"block all\n")?;
    for _i in 0..many {
        put_rule(&mut out, number)?;
        put(&mut out, b"\n")?;
    }
    Ok(out)
}

// The record of the next draws, as a text of its own.
fn record_of(alloc: Global, number: &mut u32) -> Result<Text, NoMemory>
    ensures text { IfOk result (λ r. r ≡ record_text number.old) }
    ensures behind { OnOk result (number.new ≡ after number.old 6) }
{
    let mut out = Vec::new(alloc);
    put_record(&mut out, number)?;
    Ok(List::of(out))
}

// So many records.
fn packets_of(alloc: Global, number: &mut u32, many: usize) -> Result<List<Text>, NoMemory>
    ensures { IfOk result (λ r. r ≡ records_from number.old many) }
{
    let mut records = List::new(alloc);
    for _i in 0..many {
        records.push(record_of(alloc, number)?)?;
    }
    Ok(records)
}

/// The configuration and the records of a number from 1 to 1,000 (any number serves); the same at each call.
/// Only want of memory is another answer.
pub fn generated(alloc: Global, number: u32) -> Result<Generated, NoMemory>
    ensures config { IfOk result (λ r. r.config ≡ config_of number) }
    ensures records { IfOk result (λ r. r.records ≡ records_of number) }
{
    let mut next = number;
    let config = rules_of(alloc, &mut next, RULES)?;
    let records = packets_of(alloc, &mut next, RECORDS)?;
    Ok(Generated {
        config: List::of(config),
        records,
    })
}
