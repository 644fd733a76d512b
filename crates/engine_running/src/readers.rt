//! What the states of a committed transaction tell: the number, the ring places as the first of them and how
//! many, and what else a state still has.

ghost use Rattle.std.specs.Prelude.{◌≡◌};

use crate::{Committed, Durable, Placed, Put, Released, Sure};

impl Committed {
    /// The record's number.
    pub fn number(&self) -> u64
        ensures { result ≡ self.now.number }
    {
        self.number
    }

    /// The first of its ring places, and how many there are.
    pub fn places(&self) -> (u32, u32)
        ensures { result ≡ (self.now.place, self.now.count) }
    {
        (self.place, self.count)
    }

    /// The tickets of its writes, in the order in which they were issued.
    pub fn tickets(&self) -> &[u64]
        ensures { result.now ≡ self.now.tickets.items }
    {
        self.tickets.as_slice()
    }

    /// Its payloads, ascending by block.
    pub fn payloads(&self) -> &[Put]
        ensures { result.now ≡ self.now.payloads.items }
    {
        self.payloads.as_slice()
    }

    /// The numbers of its fresh blocks, ascending.
    pub fn fresh(&self) -> &[u32]
        ensures { result.now ≡ self.now.fresh.items }
    {
        self.fresh.as_slice()
    }

    /// The blocks that it freed, in the order in which they were freed.
    pub fn freed(&self) -> &[u32]
        ensures { result.now ≡ self.now.freed.items }
    {
        self.freed.as_slice()
    }
}

impl Durable {
    /// The record's number.
    pub fn number(&self) -> u64
        ensures { result ≡ self.now.number }
    {
        self.number
    }

    /// The first of its ring places, and how many there are.
    pub fn places(&self) -> (u32, u32)
        ensures { result ≡ (self.now.place, self.now.count) }
    {
        (self.place, self.count)
    }

    /// Its payloads, ascending by block.
    pub fn payloads(&self) -> &[Put]
        ensures { result.now ≡ self.now.payloads.items }
    {
        self.payloads.as_slice()
    }

    /// The numbers of its fresh blocks, ascending.
    pub fn fresh(&self) -> &[u32]
        ensures { result.now ≡ self.now.fresh.items }
    {
        self.fresh.as_slice()
    }

    /// The blocks that it freed, in the order in which they were freed.
    pub fn freed(&self) -> &[u32]
        ensures { result.now ≡ self.now.freed.items }
    {
        self.freed.as_slice()
    }
}

impl Sure {
    /// The record's number.
    pub fn number(&self) -> u64
        ensures { result ≡ self.now.number }
    {
        self.number
    }

    /// The first of its ring places, and how many there are.
    pub fn places(&self) -> (u32, u32)
        ensures { result ≡ (self.now.place, self.now.count) }
    {
        (self.place, self.count)
    }

    /// Its payloads, ascending by block.
    pub fn payloads(&self) -> &[Put]
        ensures { result.now ≡ self.now.payloads.items }
    {
        self.payloads.as_slice()
    }

    /// The numbers of its fresh blocks, ascending.
    pub fn fresh(&self) -> &[u32]
        ensures { result.now ≡ self.now.fresh.items }
    {
        self.fresh.as_slice()
    }

    /// The blocks that it freed, in the order in which they were freed.
    pub fn freed(&self) -> &[u32]
        ensures { result.now ≡ self.now.freed.items }
    {
        self.freed.as_slice()
    }
}

impl Placed {
    /// The record's number.
    pub fn number(&self) -> u64
        ensures { result ≡ self.now.number }
    {
        self.number
    }

    /// The first of its ring places, and how many there are.
    pub fn places(&self) -> (u32, u32)
        ensures { result ≡ (self.now.place, self.now.count) }
    {
        (self.place, self.count)
    }
}

impl Released {
    /// The first of its ring places, and how many there are.
    pub fn places(&self) -> (u32, u32)
        ensures { result ≡ (self.now.place, self.now.count) }
    {
        (self.place, self.count)
    }
}
