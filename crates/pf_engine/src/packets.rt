//! `test` lines: what the rulesets answer to a packet.
ghost use Rattle.std.specs.Prelude.{◌≡◌, ◌++◌, [], ◌∷◌, IfOk, OnErr, OnOk};
ghost use Rattle.pf_record.specs.AnswerText.{answer_text};
ghost use Rattle.pf_runs.specs.Runs.{reply_text};
ghost use Rattle.pf_engine.specs.Answering.{Adds, DoesSo, is_refused};
ghost use Rattle.pf_engine.specs.TestLines.{TestDoes, asked};

use crate::engine::Engine;
use crate::outcome::Outcome;
use crate::telling::refuse;
use pf_base::NoMemory;
use pf_record::{PacketFault, put_answer, read_packet};
use pf_reply::Refusal;
use pf_rule::Packet;
use std::alloc::Global;

impl Engine {
    // Tells the answer to a packet, right behind what stands in the output.
    fn tell_answer(&self, packet: &Packet, out: &mut Vec<u8>) -> Result<(), NoMemory>
        ensures told { OnOk result (out.new.items ≡ out.old.items ++ reply_text (answer_text (asked self.now packet.now) ∷ [])) }
        ensures silent { OnErr result (out.new.items ≡ out.old.items) }
    {
        let before = out.len();
        put_answer(out, &self.ask(packet))?;
        if out.push(b'\n').is_err() {
            out.truncate(before);
            return Err(NoMemory);
        }
        Ok(())
    }

    // A packet's record is read, and the answer to the packet is told.
    pub(crate) fn test(
        &self,
        alloc: Global,
        text: &[u8],
        out: &mut Vec<u8>,
    ) -> Result<Outcome, NoMemory>
        ensures answers { IfOk result (λ outcome. Adds out.old.items out.new.items (λ bytes. DoesSo (TestDoes self.now text.now) self.now bytes (is_refused outcome))) }
        ensures silent { OnErr result (out.new.items ≡ out.old.items) }
    {
        match read_packet(text) {
            Ok(packet) => {
                self.tell_answer(&packet, out)?;
                Ok(Outcome::Done)
            }
            Err(PacketFault(field)) => refuse(alloc, out, &Refusal::BadPacket(field)),
        }
    }
}
