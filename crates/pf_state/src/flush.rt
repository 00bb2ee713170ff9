//! `flush rules` (pfctl(8), Loads and sessions).
ghost use Rattle.std.specs.Prelude.{◌≡◌, ◌++◌, ◌<◌, ◌-◌, ◌^◌, OnErr, OnOk, true};
ghost use Rattle.pf_tree.specs.Meaning.{is_prepared};
ghost use Rattle.pf_state.specs.Flushes.{flushed, flushed_rulesets};

use crate::commit::give_all;
use crate::machine::Machine;
use pf_base::{NoMemory, Path};
use pf_optim::{Node, Ruleset};
use pf_tree::{Blank, Tree};
use std::alloc::Global;

// Takes the rules of a ruleset away, and what stands below it without a name.
fn flush_tree(alloc: Global, tree: &mut Tree<Node>, path: &Path)
    requires { is_prepared tree.old path.now ≡ true }
    ensures { tree.new.payloads ≡ flushed_rulesets path.now tree.old.payloads }
{
    tree.clear_under(path);
    let mut node = Node::fresh(alloc);
    tree.install(path, &mut node);
    node.rules = Ruleset::new(alloc);
    tree.install(path, &mut node);
}

impl Machine {
    /// Takes the rules of a ruleset and of the nameless ones below it away; its tables stay. It draws a ticket for the path and
    /// appends the reply: all at once, or without memory nothing.
    pub fn flush(
        &mut self,
        alloc: Global,
        path: &Path,
        reply: &[u8],
        out: &mut Vec<u8>,
    ) -> Result<(), NoMemory>
        requires drawn { 0 < self.old.next }
        requires next { self.old.next < 2 ^ 64 - 1 }
        ensures ok { OnOk result (self.new ≡ flushed path.now self.old) }
        ensures told { OnOk result (out.new.items ≡ out.old.items ++ reply.now) }
        ensures err { OnErr result (self.new ≡ self.old) }
        ensures silent { OnErr result (out.new.items ≡ out.old.items) }
    {
        let paths = [*path];
        let rulesets = &mut self.rulesets;
        let tickets = &mut self.tickets;
        rulesets.tree.prepare(alloc, &paths)?;
        tickets.tree.prepare(alloc, &paths)?;
        out.extend_from_slice(reply)?;
        give_all(&mut tickets.tree, self.next, &paths);
        self.next += 1;
        flush_tree(alloc, &mut rulesets.tree, path);
        Ok(())
    }
}
