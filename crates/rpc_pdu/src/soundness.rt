//! Which values are right.

ghost use Rattle.std.specs.Prelude.{◌≡◌};
ghost use Rattle.rpc_pdu.specs.Soundness.{agrees, unsound, unsound_ack, unsound_bind, unsound_body, unsound_contexts, unsound_results};

use dts_base::Field;
use pdu_fields::{
    AckBody, BindBody, Body, Context, ContextResult, MAX_ADDRESS, MAX_CONTEXTS, MAX_MINOR,
    MAX_PROTOCOLS, MAX_REASON, MAX_RESULT, MAX_TRANSFERS, OBJECT_UUID, Pdu,
};
use uuid::Uuid;

/// The first field whose value is not right.
pub fn unsound(p: &Pdu) -> Option<Field>
    ensures { result ≡ unsound p.now }
{
    if p.minor > MAX_MINOR {
        return Some(Field::RpcVersMinor);
    }
    unsound_body(p.flags, &p.body)
}

fn unsound_body(flags: u8, body: &Body) -> Option<Field>
    ensures { result ≡ unsound_body flags body.now }
{
    match body {
        Body::Request { object, .. } if !agrees(flags, object) => Some(Field::PfcFlags),
        Body::Bind(bind) | Body::AlterContext(bind) => unsound_bind(bind),
        Body::BindAck(ack) | Body::AlterContextResp(ack) => unsound_ack(ack),
        Body::BindNak { protocols, .. } if protocols.as_slice().len() > MAX_PROTOCOLS => Some(
            Field::NProtocols,
        ),
        _ => None,
    }
}

// An object is there exactly where the flag for it is set.
fn agrees(flags: u8, object: &Option<Uuid>) -> bool
    ensures { result ≡ agrees flags object.now }
{
    if flags & OBJECT_UUID == 0 {
        object.is_none()
    } else {
        object.is_some()
    }
}

fn unsound_bind(bind: &BindBody) -> Option<Field>
    ensures { result ≡ unsound_bind bind.now }
{
    let contexts = bind.contexts.as_slice();
    if contexts.is_empty() || contexts.len() > usize::from(MAX_CONTEXTS) {
        return Some(Field::NContext);
    }
    unsound_contexts(contexts)
}

fn unsound_contexts(contexts: &[Context]) -> Option<Field>
    ensures { result ≡ unsound_contexts contexts.now }
{
    for context in contexts {
        let transfers = context.transfers.as_slice();
        if transfers.is_empty() || transfers.len() > usize::from(MAX_TRANSFERS) {
            return Some(Field::NTransferSyn);
        }
    }
    None
}

fn unsound_ack(ack: &AckBody) -> Option<Field>
    ensures { result ≡ unsound_ack ack.now }
{
    if ack.address.as_slice().len() > MAX_ADDRESS {
        return Some(Field::SecLength);
    }
    let results = ack.results.as_slice();
    if results.is_empty() || results.len() > usize::from(MAX_CONTEXTS) {
        return Some(Field::NResults);
    }
    unsound_results(results)
}

fn unsound_results(results: &[ContextResult]) -> Option<Field>
    ensures { result ≡ unsound_results results.now }
{
    for answer in results {
        if answer.result > MAX_RESULT {
            return Some(Field::Result);
        }
        if answer.reason > MAX_REASON {
            return Some(Field::Reason);
        }
    }
    None
}
