ghost use Rattle.std.specs.Prelude.{◌≡◌, [], ◌∷◌, ◌++◌, IfOk, is_ok, if◌then◌else◌};

use crate::{Context, ContextResult, Protocol, Syntax};
use dts_base::NoMemory;
use std::alloc::Global;
use std::marker::Model;

/// Contexts that are proposed, in order. Clauses see the list.
#[derive(Debug, Drop)]
pub struct Contexts {
    items: Vec<Context>,
}

impl Model for Contexts {
    ghost use Rattle.std.specs.Prelude.{List};
    ghost use Rattle.pdu_fields.specs.declared.pdu.Context.{Context};

    ghost Value = { List Context };

    ghost view = { λ l. l.items.items };
}

impl Contexts {
    /// The empty list.
    pub fn new(alloc: Global) -> Result<Contexts, NoMemory>
        ensures empty { IfOk result (λ l. l ≡ []) }
    {
        Ok(Contexts {
            items: Vec::new(alloc),
        })
    }

    /// Puts one more at the end. Without memory the list stays as it is.
    pub fn push(&mut self, _alloc: Global, v: Context) -> Result<(), NoMemory>
        ensures pushed { self.new ≡ (if is_ok result then self.old ++ v ∷ [] else self.old) }
    {
        self.items.push(v)?;
        Ok(())
    }

    /// Lends the list.
    pub fn as_slice(&self) -> &[Context]
        ensures list { result.now ≡ self.now }
    {
        self.items.as_slice()
    }
}

/// Transfer syntaxes, in order. Clauses see the list.
#[derive(Debug, Drop)]
pub struct Syntaxes {
    items: Vec<Syntax>,
}

impl Model for Syntaxes {
    ghost use Rattle.std.specs.Prelude.{List};
    ghost use Rattle.pdu_fields.specs.declared.pdu.Syntax.{Syntax};

    ghost Value = { List Syntax };

    ghost view = { λ l. l.items.items };
}

impl Syntaxes {
    /// The empty list.
    pub fn new(alloc: Global) -> Result<Syntaxes, NoMemory>
        ensures empty { IfOk result (λ l. l ≡ []) }
    {
        Ok(Syntaxes {
            items: Vec::new(alloc),
        })
    }

    /// Puts one more at the end. Without memory the list stays as it is.
    pub fn push(&mut self, _alloc: Global, v: Syntax) -> Result<(), NoMemory>
        ensures pushed { self.new ≡ (if is_ok result then self.old ++ v ∷ [] else self.old) }
    {
        self.items.push(v)?;
        Ok(())
    }

    /// Lends the list.
    pub fn as_slice(&self) -> &[Syntax]
        ensures list { result.now ≡ self.now }
    {
        self.items.as_slice()
    }
}

/// Answers to contexts, in order. Clauses see the list.
#[derive(Debug, Drop)]
pub struct ContextResults {
    items: Vec<ContextResult>,
}

impl Model for ContextResults {
    ghost use Rattle.std.specs.Prelude.{List};
    ghost use Rattle.pdu_fields.specs.declared.pdu.ContextResult.{ContextResult};

    ghost Value = { List ContextResult };

    ghost view = { λ l. l.items.items };
}

impl ContextResults {
    /// The empty list.
    pub fn new(alloc: Global) -> Result<ContextResults, NoMemory>
        ensures empty { IfOk result (λ l. l ≡ []) }
    {
        Ok(ContextResults {
            items: Vec::new(alloc),
        })
    }

    /// Puts one more at the end. Without memory the list stays as it is.
    pub fn push(&mut self, _alloc: Global, v: ContextResult) -> Result<(), NoMemory>
        ensures pushed { self.new ≡ (if is_ok result then self.old ++ v ∷ [] else self.old) }
    {
        self.items.push(v)?;
        Ok(())
    }

    /// Lends the list.
    pub fn as_slice(&self) -> &[ContextResult]
        ensures list { result.now ≡ self.now }
    {
        self.items.as_slice()
    }
}

/// Versions of the protocol, in order. Clauses see the list.
#[derive(Debug, Drop)]
pub struct Protocols {
    items: Vec<Protocol>,
}

impl Model for Protocols {
    ghost use Rattle.std.specs.Prelude.{List};
    ghost use Rattle.pdu_fields.specs.declared.pdu.Protocol.{Protocol};

    ghost Value = { List Protocol };

    ghost view = { λ l. l.items.items };
}

impl Protocols {
    /// The empty list.
    pub fn new(alloc: Global) -> Result<Protocols, NoMemory>
        ensures empty { IfOk result (λ l. l ≡ []) }
    {
        Ok(Protocols {
            items: Vec::new(alloc),
        })
    }

    /// Puts one more at the end. Without memory the list stays as it is.
    pub fn push(&mut self, _alloc: Global, v: Protocol) -> Result<(), NoMemory>
        ensures pushed { self.new ≡ (if is_ok result then self.old ++ v ∷ [] else self.old) }
    {
        self.items.push(v)?;
        Ok(())
    }

    /// Lends the list.
    pub fn as_slice(&self) -> &[Protocol]
        ensures list { result.now ≡ self.now }
    {
        self.items.as_slice()
    }
}
