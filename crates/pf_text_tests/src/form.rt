//! Parts of rules, over the tokens of short texts.
use crate::tokens::tokens;
use pf_form::flags::take_flags;
use pf_form::hosts::{take_direction, take_family, take_hosts, take_ifaces, take_protos};
use pf_form::log::take_logged;
use pf_form::setting::{ReadSet, is_no_scrub, take_prio, take_scrub, take_settings, take_tos};
use pf_form::state::take_state_options;
use pf_syntax::{Cursor, Stop};
use std::test::Fail;

// A stop as the error of a test.
fn stopped(_stop: Stop) -> &'static str {
    "outside the grammar"
}

#[test]
fn fronts_of_rules(rt: HostRuntime) -> Result<(), Fail> {
    let alloc = rt.alloc();
    let text =
        "in quick log (to pflog1, user) on {em0 ! em1} inet6 proto tcp from port 22 to any port 80";
    let tokens = tokens(&rt, alloc, text)?;
    let mut cursor = Cursor::new(alloc, &tokens);
    assert!(rt; take_direction(&mut cursor).map_err(stopped)?.is_some());
    let logged = take_logged(&mut cursor).map_err(stopped)?;
    assert!(rt; logged.quick && logged.log.user && logged.log.to.is_some());
    assert_eq!(rt; take_ifaces(&mut cursor).map_err(stopped)?.items().len(), 2);
    assert!(rt; take_family(&mut cursor).map_err(stopped)?.is_some());
    assert_eq!(rt; take_protos(&mut cursor).map_err(stopped)?.items().len(), 1);
    let hosts = take_hosts(&mut cursor).map_err(stopped)?;
    assert!(rt; hosts.sources.hosts.items().is_empty());
    assert_eq!(rt; hosts.sources.ports.items().len(), 1);
    assert_eq!(rt; hosts.targets.hosts.items().len(), 1);
    assert!(rt; cursor.is_at_end());
    Ok(())
}

#[test]
fn options_of_rules(rt: HostRuntime) -> Result<(), Fail> {
    let alloc = rt.alloc();
    let text =
        "S/SX 0x1f 7 state (source-track, max-src-conn-rate 5/10) (queue (a, b) prio 3) (no-df min-ttl 5)";
    let tokens = tokens(&rt, alloc, text)?;
    let mut cursor = Cursor::new(alloc, &tokens);
    assert!(rt; take_flags(&mut cursor).map_err(stopped)?.unknown);
    assert_eq!(rt; take_tos(&mut cursor).map_err(stopped)?, 31);
    assert_eq!(rt; take_prio(&mut cursor).map_err(stopped)?, 7);
    let read = take_state_options(&mut cursor).map_err(stopped)?;
    assert!(rt; read.options.max_src_conn_rate.is_some() && !read.repeated);
    let none = ReadSet {
        queue: None,
        prio: None,
        tos: None,
    };
    let set = take_settings(&mut cursor, none).map_err(stopped)?;
    assert!(rt; set.queue.is_some() && set.prio.is_some());
    assert!(rt; !is_no_scrub(&take_scrub(&mut cursor).map_err(stopped)?));
    assert!(rt; cursor.is_at_end());
    Ok(())
}
