ghost use Rattle.std.specs.Prelude.{◌≡◌, [], if◌then◌else◌, is_ok, IfOk, Ok};
ghost use Rattle.rpc_feed.specs.Feeding.{Gives, fed};
ghost use Rattle.rpc_feed.specs.Standing.{Names, Stands};

use crate::held::Held;
use dts_base::{NoMemory, Refused};
use ndr::DecodeFault;
use pdu_fields::{Cursor, HEADER_LENGTH, Header, Pdu};
use rpc_pdu::decode;
use std::alloc::Global;
use std::marker::Model;

/// A stream of octets out of which PDUs are taken. Clauses see the octets that were fed and not yet given, or the refusal
/// that the feed is dead of.
#[derive(Debug, Drop)]
pub struct Feed {
    held: Held,
    refused: Option<Refused>,
}

impl Model for Feed {
    ghost use Rattle.std.specs.Prelude.{◌≡◌, List, [], ℕ, Result, IfSome};
    ghost use Rattle.dts_base.specs.declared.wire.Refused.{Refused};
    ghost use Rattle.rpc_feed.specs.Standing.{feed_of};

    ghost Value = { Result (List ℕ) Refused };

    ghost view = { λ f. feed_of f.refused f.held };

    // A dead feed holds nothing.
    ghost invariant = { λ f. IfSome f.refused (λ _. f.held ≡ []) };
}

impl Feed {
    /// A feed that no octets were fed to.
    pub fn new(alloc: Global) -> Result<Feed, NoMemory>
        ensures empty { IfOk result (λ f. f ≡ Ok []) }
    {
        Ok(Feed {
            held: Held::new(alloc),
            refused: None,
        })
    }

    /// Appends octets. A dead feed takes none. Without memory the feed stays as it is.
    pub fn feed(&mut self, _alloc: Global, piece: &[u8]) -> Result<(), NoMemory>
        ensures appended { self.new ≡ (if is_ok result then fed self.old piece.now else self.old) }
    {
        if self.refused.is_some() {
            return Ok(());
        }
        self.held.append(piece)
    }

    /// Gives the PDU whose fragment stands at the front, or refuses the first field of it that is short or not right. It is
    /// None exactly where no whole header stands there, or a right header whose fragment is not whole. A field of a header
    /// is refused as soon as the header is whole. After a refusal the feed is dead: it gives the same refusal from then
    /// on. Without memory the feed stays as it is.
    pub fn next(&mut self, alloc: Global) -> Option<Result<Pdu, DecodeFault>>
        ensures next { Gives self.old self.new result }
    {
        if let Some(refused) = self.refused {
            return Some(Err(DecodeFault::Wrong(refused)));
        }
        match first(alloc, self.held.as_slice()) {
            Ok(None) => None,
            Ok(Some((pdu, size))) => {
                self.held.give_up(size);
                Some(Ok(pdu))
            }
            Err(DecodeFault::Wrong(refused)) => {
                self.held = Held::new(alloc);
                self.refused = Some(refused);
                Some(Err(DecodeFault::Wrong(refused)))
            }
            Err(DecodeFault::NoMemory) => Some(Err(DecodeFault::NoMemory)),
        }
    }

    /// A feed that means the same.
    pub fn copy(&self, alloc: Global) -> Result<Feed, NoMemory>
        ensures same { IfOk result (λ f. f ≡ self.now) }
    {
        Ok(Feed {
            held: self.held.copy(alloc)?,
            refused: self.refused,
        })
    }
}

// The length that a header names.
fn length_in(head: &[u8]) -> Result<usize, DecodeFault>
    ensures { Names head.now result }
{
    let header = Header::read(&mut Cursor::new(head), None)?;
    Ok(usize::from(header.length))
}

// The PDU at the front of a stream and the length of its fragment, if that is whole.
fn first(alloc: Global, stream: &[u8]) -> Result<Option<(Pdu, usize)>, DecodeFault>
    ensures { Stands stream.now result }
{
    if stream.len() < HEADER_LENGTH {
        return Ok(None);
    }
    let size = length_in(&stream[..HEADER_LENGTH])?;
    if stream.len() < size {
        return Ok(None);
    }
    let pdu = decode(alloc, &stream[..size])?;
    Ok(Some((pdu, size)))
}
