//! Laws over the definitions: each is the contract of a call that does nothing.

ghost use Rattle.std.specs.Prelude.{◌≡◌, ◌<◌, ◌≤◌, ◌+◌, ℕ, List, [], ◌∷◌, length, false, true, Ok};
ghost use Rattle.dts_base.specs.declared.wire.State.TheVariants as state;
ghost use Rattle.ndr.specs.declared.endian.Endian.{Endian};
ghost use Rattle.ndr.specs.declared.endian.Endian.TheVariants.{Little};
ghost use Rattle.pdu_fields.specs.declared.pdu.Pdu.{Pdu};
ghost use Rattle.rpc_session.specs.declared.fragments.TheConstants.{MAX_STUB, STUB_OFFSET};
ghost use Rattle.std.specs.List.{AllByRecursion, flat_map};
ghost use Rattle.rpc_session.specs.declared.fragments.Message.{Message};
ghost use Rattle.rpc_session.specs.declared.client.TheConstants.{THE_CONTEXT};
ghost use Rattle.rpc_session.specs.declared.client.ClientOut.TheVariants as out;
ghost use Rattle.rpc_session.specs.declared.client.OpenCall.TheVariants as opened;
ghost use Rattle.rpc_session.specs.declared.server.TheConstants.{LAST_OPERATION};
ghost use Rattle.rpc_session.specs.declared.server.Out.TheVariants as given;
ghost use Rattle.rpc_session.specs.declared.server.Phase.TheVariants as phase;
ghost use Rattle.rpc_session.specs.Contexts.{holds};
ghost use Rattle.rpc_session.specs.Fragments.{full_fragments, message, stub_room};
ghost use Rattle.rpc_session.specs.Unexpected.{unexpected};
ghost use Rattle.rpc_session.specs.Client.{ClientHistory, Requested, Took, client_limit, last_call, open_call, request_sent, stub_of, taken};
ghost use Rattle.rpc_session.specs.Server.{Received, ServerHistory, accepted, answered, request_octets, response_sent, server_limit, serving};
ghost use Rattle.rpc_session.specs.Runs.{client_answers, server_answers, then_last};

/// A dead client takes nothing and stays dead, and so does a server for each PDU.
pub fn the_dead_stay_dead()
    ensures refused { (h : ClientHistory) (p : Pdu) → open_call h ≡ opened.Ended → taken h p ≡ unexpected state.Dead p }
    ensures client { (h : ClientHistory) (p : Pdu) → open_call h ≡ opened.Ended → open_call (Took h p (taken h p)) ≡ opened.Ended }
    ensures server { (h : ServerHistory) (p : Pdu) → serving h ≡ phase.Dead → serving (Received h p (answered h p)) ≡ phase.Dead }
{}

/// The stubs of the fragments of a message, one behind the other, are its stub, and no fragment is longer than its limit.
pub fn a_message_is_cut_at_its_limit()
    ensures whole { (m : Message) (limit : ℕ) (stub : List ℕ) → flat_map (λ (p : Pdu). stub_of p.body) (message m limit stub) ≡ stub }
    ensures fitting { (m : Message) (limit : ℕ) (stub : List ℕ) → STUB_OFFSET < limit
        → AllByRecursion (λ (p : Pdu). STUB_OFFSET + length (stub_of p.body) ≤ limit) (message m limit stub) }
{}

/// What a client sends of a request, a server that accepted its context and gathers nothing takes as one Call with that
/// stub: nothing comes of the fragments before the last. The fragments may be of any size.
pub fn what_is_asked_is_one_call()
    ensures { (c : ClientHistory) (s : ServerHistory) (opnum : ℕ) (stub : List ℕ)
        → serving s ≡ phase.Bound → request_octets s ≡ [] → holds (accepted s) THE_CONTEXT ≡ true → opnum ≤ LAST_OPERATION
        → length stub ≤ MAX_STUB → server_answers s (request_sent c opnum stub)
        ≡ then_last (full_fragments (stub_room (client_limit c)) stub) (Ok [])
        (Ok (given.Call (last_call c + 1) THE_CONTEXT opnum stub Little false ∷ [])) }
{}

/// What a server sends of a response to the request that a client sent last, that client takes as one Reply with that stub:
/// the fragments before the last are parts of it. The fragments may be of any size.
pub fn what_is_answered_is_one_reply()
    ensures { (c : ClientHistory) (s : ServerHistory) (opnum context : ℕ) (asked stub : List ℕ) (endian : Endian) → length stub ≤ MAX_STUB
        → client_answers (Requested c opnum asked) (response_sent s (last_call c + 1) context endian stub)
        ≡ then_last (full_fragments (stub_room (server_limit s)) stub) (Ok out.Partial)
        (Ok (out.Reply (last_call c + 1) stub endian)) }
{}
