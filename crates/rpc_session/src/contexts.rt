//! The contexts that a server accepts, and its answers to those that are proposed.

ghost use Rattle.std.specs.Prelude.{◌≡◌, [], ◌++◌, ◌∷◌, length, if◌then◌else◌, is_ok, IfOk, IfErr};
ghost use Rattle.std.specs.List.{list_any};
ghost use Rattle.rpc_session.specs.Contexts.{accepted_after, accepted_with, context_result, context_results, holds, is_ndr, ndr_syntax, no_syntax, refusal, time_interface};

use dts_base::NoMemory;
use pdu_fields::{Context, ContextResult, ContextResults, MAX_CONTEXTS, Syntax};
use std::alloc::Global;
use std::marker::Model;
use uuid::Uuid;

// The identifier of the time interface, 6a0e5a10-3c52-4b7e-9d21-5e8f7c1a2b30, our own.
const TIME_UUID: [u8; 16] = [
    0x6a, 0x0e, 0x5a, 0x10, 0x3c, 0x52, 0x4b, 0x7e, 0x9d, 0x21, 0x5e, 0x8f, 0x7c, 0x1a, 0x2b, 0x30,
];

const TIME_VERSION: u32 = 1;

// The identifier of the transfer syntax NDR, 8a885d04-1ceb-11c9-9fe8-08002b104860 (C706, chapter 14).
const NDR_UUID: [u8; 16] = [
    0x8a, 0x88, 0x5d, 0x04, 0x1c, 0xeb, 0x11, 0xc9, 0x9f, 0xe8, 0x08, 0x00, 0x2b, 0x10, 0x48, 0x60,
];

const NDR_VERSION: u32 = 2;

// The identifier of the transfer syntax that goes with a refusal.
const NO_UUID: [u8; 16] = [0; 16];

/// The time interface, version 1: our own.
pub fn time_interface() -> Syntax
    ensures { result ≡ time_interface }
{
    Syntax {
        uuid: Uuid::from_bytes(TIME_UUID),
        version: TIME_VERSION,
    }
}

/// The transfer syntax NDR, version 2 (C706, chapter 14).
pub fn ndr_syntax() -> Syntax
    ensures { result ≡ ndr_syntax }
{
    Syntax {
        uuid: Uuid::from_bytes(NDR_UUID),
        version: NDR_VERSION,
    }
}

// The transfer syntax that goes with a refusal.
fn no_syntax() -> Syntax
    ensures { result ≡ no_syntax }
{
    Syntax {
        uuid: Uuid::from_bytes(NO_UUID),
        version: 0,
    }
}

/// The result of a context that is accepted.
pub const ACCEPTANCE: u16 = 0;

const PROVIDER_REJECTION: u16 = 2;

const NOT_SPECIFIED: u16 = 0;

const ABSTRACT_NOT_SUPPORTED: u16 = 1;

const TRANSFERS_NOT_SUPPORTED: u16 = 2;

const LIMIT_EXCEEDED: u16 = 3;

/// The numbers of the contexts that were accepted, each once, at most 16. Clauses see the list.
#[derive(Debug, Drop)]
pub struct Accepted {
    ids: Vec<u16>,
}

impl Model for Accepted {
    ghost use Rattle.std.specs.Prelude.{List, ℕ};

    ghost Value = { List ℕ };

    ghost view = { λ a. a.ids.items };
}

// Whether the transfer syntax NDR is among these.
fn offers_ndr(transfers: &[Syntax]) -> bool
    ensures { result ≡ list_any is_ndr transfers.now }
{
    let ndr = ndr_syntax();
    transfers.iter().any(|transfer| *transfer == ndr)
}

impl Accepted {
    /// No contexts.
    pub fn new(alloc: Global) -> Accepted
        ensures { result ≡ [] }
    {
        Accepted {
            ids: Vec::new(alloc),
        }
    }

    /// Whether a context was accepted.
    pub fn holds(&self, id: u16) -> bool
        ensures { result ≡ holds self.now id }
    {
        self.ids.contains(&id)
    }

    // The reason to refuse a context, where there is one.
    fn refusal(&self, context: &Context) -> Option<u16>
        ensures { result ≡ refusal self.now context.now }
    {
        if context.abstract_syntax != time_interface() {
            return Some(ABSTRACT_NOT_SUPPORTED);
        }
        if !offers_ndr(context.transfers.as_slice()) {
            return Some(TRANSFERS_NOT_SUPPORTED);
        }
        if !self.holds(context.id) && self.ids.len() >= usize::from(MAX_CONTEXTS) {
            return Some(LIMIT_EXCEEDED);
        }
        None
    }

    // Answers a context, and keeps its number where it is accepted.
    fn answer(&mut self, context: &Context) -> Result<ContextResult, NoMemory>
        ensures answer { IfOk result (λ r. r ≡ context_result self.old context.now) }
        ensures accepted { IfOk result (λ _. self.new ≡ accepted_with self.old context.now) }
    {
        if let Some(reason) = self.refusal(context) {
            return Ok(ContextResult {
                result: PROVIDER_REJECTION,
                reason,
                transfer: no_syntax(),
            });
        }
        if !self.holds(context.id) {
            self.ids.push(context.id)?;
        }
        Ok(ContextResult {
            result: ACCEPTANCE,
            reason: NOT_SPECIFIED,
            transfer: ndr_syntax(),
        })
    }

    /// Answers contexts one behind the other, and keeps the numbers of those that are accepted.
    pub fn answer_all(
        &mut self,
        alloc: Global,
        contexts: &[Context],
    ) -> Result<ContextResults, NoMemory>
        ensures answers { IfOk result (λ rs. rs ≡ context_results self.old contexts.now) }
        ensures accepted { IfOk result (λ _. self.new ≡ accepted_after self.old contexts.now) }
    {
        let mut results = ContextResults::new(alloc)?;
        for context in contexts {
            let answer = self.answer(context)?;
            results.push(alloc, answer)?;
        }
        Ok(results)
    }

    /// A copy of the numbers.
    pub fn copy(&self, alloc: Global) -> Result<Accepted, NoMemory>
        ensures { IfOk result (λ a. a ≡ self.now) }
    {
        Ok(Accepted {
            ids: self.ids.as_slice().to_vec(alloc)?,
        })
    }
}
