//! What is asked of a memory, and what it answers.

ghost use Rattle.std.specs.Prelude.{◌≡◌};
ghost use Rattle.bus.specs.Request.{access_of, action_kind, read_of, same_access, word_of, write_of};

/// The name of the word that an address lies in: the address with its two low bits cleared.
#[inline(always)]
pub fn word_of(address: u32) -> u32
    ensures { result ≡ word_of address }
{
    address & !3
}

/// How many bytes a write changes: 4, 2 or 1.
#[derive(Clone, Copy, PartialEq, Eq)]
pub enum Width {
    Word,
    Half,
    Byte,
}

/// The four kinds of request; a read always asks for a word.
#[derive(Clone, Copy, PartialEq, Eq)]
pub enum Kind {
    Read,
    Write(Width),
}

/// What a request does at its address. A half or a byte is taken from the low bits of the data.
#[derive(Clone, Copy)]
pub enum Action {
    Read,
    Write(Width, u32),
}

impl Action {
    /// The kind of the request, which leaves the data out.
    #[inline(always)]
    pub fn kind(self) -> Kind
        ensures { result ≡ action_kind self }
    {
        match self {
            Action::Read => Kind::Read,
            Action::Write(width, _) => Kind::Write(width),
        }
    }
}

#[derive(Clone, Copy)]
pub struct Request {
    pub address: u32,
    pub action: Action,
}

/// A request without its data: two requests are the same when kind and address agree.
#[derive(Clone, Copy, PartialEq, Eq)]
pub struct Access {
    pub address: u32,
    pub kind: Kind,
}

impl Access {
    /// Whether kind and address agree.
    #[inline(always)]
    pub fn same(self, other: Access) -> bool
        ensures { result ≡ same_access self other }
    {
        self == other
    }
}

impl Request {
    /// Asks for the word of an address.
    #[inline(always)]
    pub fn read(address: u32) -> Request
        ensures { result ≡ read_of address }
    {
        Request {
            address,
            action: Action::Read,
        }
    }

    /// Asks to write the low bits of the data.
    #[inline(always)]
    pub fn write(width: Width, address: u32, data: u32) -> Request
        ensures { result ≡ write_of width address «data» }
    {
        Request {
            address,
            action: Action::Write(width, data),
        }
    }

    #[inline(always)]
    pub fn access(self) -> Access
        ensures { result ≡ access_of self }
    {
        Access {
            address: self.address,
            kind: self.action.kind(),
        }
    }
}

/// The three answers. `Done` carries the word that a read found, and 0 after a write.
#[derive(Clone, Copy, PartialEq, Eq)]
pub enum Answer {
    Wait,
    BusError,
    Done(u32),
}
