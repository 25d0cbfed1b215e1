//! Laws of what a client writes and reads, over the definitions.
ghost use Rattle.std.specs.Prelude.{◌≡◌, ◌≤◌, [], Ok, true};
ghost use Rattle.std.specs.List.{concat};
ghost use Rattle.map_core.specs.PlainMap.{PlainMap, ask};
ghost use Rattle.map_core.specs.declared.op.Op.{Op};
ghost use Rattle.wire.specs.Frame.{stream_of};
ghost use Rattle.wire.specs.declared.version.Version.{Version};
ghost use Rattle.wire.specs.declared.judge.Judged.TheVariants.{Ask, SetVersion};
ghost use Rattle.wire.specs.Fields.{version_number};
ghost use Rattle.wire.specs.Judge.{request_of};
ghost use Rattle.frame_front.specs.Terms.{for_all};
ghost use Rattle.frame_front.specs.PlainSession.{answers_to, state_after};
ghost use Rattle.client.specs.Request.{is_written, IsValidOp, least_version, request_payload, request_payloads, request_bytes, speak_payload};
ghost use Rattle.client.specs.Client.{reply_bytes};
ghost use Rattle.client.specs.Answer.{MayAnswer};

/// A request that is written is read as its operation, in each version from that on which it needs; and the request that sets
/// a version as this.
pub fn requests_are_read_as_asked()
    ensures asked { (version : Version) (op : Op) → is_written op ≡ true → IsValidOp op → least_version op ≤ version_number version
        → request_of version (request_payload op) ≡ Ok (Ask op) }
    ensures version { (version wanted : Version) → request_of version (speak_payload wanted) ≡ Ok (SetVersion wanted) }
{}

/// A session of any version that may do all answers what a client writes by what it reads as the map's own reply, and
/// leaves the map that this reply leaves.
pub fn sessions_answer_what_clients_read()
    ensures { (version : Version) (m : PlainMap) (op : Op) → is_written op ≡ true → IsValidOp op →
        (request_bytes op ≡ stream_of (request_payloads op) [])
        × (concat (answers_to (for_all version, m) (request_payloads op)) ≡ reply_bytes op (Ok (ask m op).reply))
        × ((state_after (for_all version, m) (request_payloads op)).1 ≡ (ask m op).map) }
{}

/// What a map answers to an operation, a client takes for an answer to it.
pub fn maps_answer_as_clients_take()
    ensures { (m : PlainMap) (op : Op) → MayAnswer op (Ok (ask m op).reply) }
{}
