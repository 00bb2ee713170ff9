//! Forms of which only the head is known.
ghost use Rattle.std.specs.Prelude.{◌≡◌};
ghost use Rattle.pf_form.specs.Blank as says;

use crate::form::{Draft, Head, RuleForm};
use pf_base::List;
use pf_parts::{StateOptions, TagTest};
use pf_rule::Params;
use std::alloc::Global;

/// A form of which only the head is known.
pub fn blank_form(alloc: Global, head: Head) -> RuleForm
    ensures { result ≡ says.blank_form head }
{
    RuleForm {
        head,
        direction: None,
        quick: false,
        family: None,
        flags: None,
        tos: None,
        prio: None,
        tagged: TagTest::Any,
        tag: None,
        state: None,
        options: StateOptions::NONE,
        params: Params::NONE,
        label: None,
        ifaces: List::new(alloc),
        protos: List::new(alloc),
        icmp: List::new(alloc),
        sources: List::new(alloc),
        source_ports: List::new(alloc),
        targets: List::new(alloc),
        target_ports: List::new(alloc),
        users: List::new(alloc),
        groups: List::new(alloc),
        nat: None,
        rdr: None,
    }
}

/// A draft of which only the head is known.
pub fn blank(alloc: Global, head: Head) -> Draft
    ensures { result ≡ says.blank head }
{
    Draft {
        form: blank_form(alloc, head),
        unknown_flag: false,
        repeated_option: false,
        group_first: false,
        rdr_first: false,
    }
}
