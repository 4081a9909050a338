ghost use Rattle.std.specs.Prelude.{◌≡◌};
ghost use Rattle.layouts.specs.Any.{table_of, meaning_of, any_lawful};
ghost use Rattle.layouts.specs.Tables.{line_at};

use crate::layout::{Kind, Layout, PRINCIPAL, Params};
use crate::table::{Grant, Line};

/// One of the two layouts that come with the bench, chosen at run time.
#[derive(Clone, Copy)]
pub enum AnyLayout {
    /// 0 msg, 1 principal, 2 nonce, 3 shared keys of two principals, 4 public keys of a principal,
    /// 5 private keys of a public key.
    Report,
    /// 0 msg, 1 principal, 2 nonce, 3 long-term keys and 4 short-term keys, each of two principals.
    KeyServer,
}

/// The public keys of the report layout.
const PUBLIC_KEY: u8 = 4;

/// The private keys of the report layout.
const PRIVATE_KEY: u8 = 5;

const MSG_LINE: Line = Line {
    params: Params::Zero,
    sendable: true,
    kind: Kind::Plain,
    makeable: true,
    granted: Grant::Nobody,
};

const PRINCIPAL_LINE: Line = Line {
    params: Params::Zero,
    sendable: true,
    kind: Kind::Plain,
    makeable: false,
    granted: Grant::Everybody,
};

const NONCE_LINE: Line = MSG_LINE;

const REPORT: [Line; 6] = [
    MSG_LINE,
    PRINCIPAL_LINE,
    NONCE_LINE,
    // shared keys
    Line {
        params: Params::Two(PRINCIPAL, PRINCIPAL),
        sendable: true,
        kind: Kind::Sealing,
        makeable: false,
        granted: Grant::Either,
    },
    // public keys
    Line {
        params: Params::One(PRINCIPAL),
        sendable: true,
        kind: Kind::Locking(PRIVATE_KEY),
        makeable: false,
        granted: Grant::Everybody,
    },
    // private keys
    Line {
        params: Params::One(PUBLIC_KEY),
        sendable: false,
        kind: Kind::Plain,
        makeable: false,
        granted: Grant::OfFirst,
    },
];

const KEY_SERVER: [Line; 5] = [
    MSG_LINE,
    PRINCIPAL_LINE,
    NONCE_LINE,
    // long-term keys
    Line {
        params: Params::Two(PRINCIPAL, PRINCIPAL),
        sendable: false,
        kind: Kind::Sealing,
        makeable: false,
        granted: Grant::Either,
    },
    // short-term keys
    Line {
        params: Params::Two(PRINCIPAL, PRINCIPAL),
        sendable: true,
        kind: Kind::Sealing,
        makeable: true,
        granted: Grant::Nobody,
    },
];

/// What is said of a family that a layout lacks.
// Written out: a derived default would promise no value.
const LACKED: Line = Line {
    params: Params::Zero,
    sendable: false,
    kind: Kind::Plain,
    makeable: false,
    granted: Grant::Nobody,
};

impl AnyLayout {
    /// The layout's table, family 0 first.
    fn table(self) -> &'static [Line]
        ensures { result.now ≡ table_of self }
    {
        match self {
            AnyLayout::Report => &REPORT,
            AnyLayout::KeyServer => &KEY_SERVER,
        }
    }

    /// What the layout says of the family.
    fn line(self, family: u8) -> Line
        ensures { result ≡ line_at (table_of self) family }
    {
        self.table()
            .get(usize::from(family))
            .copied()
            .unwrap_or(LACKED)
    }
}

impl Layout for AnyLayout {
    ghost meaning = { meaning_of };

    ghost lawful = { any_lawful };

    fn families(&self) -> u8 {
        self.table().len() as u8
    }

    fn parameters(&self, family: u8) -> Params<u8> {
        self.line(family).params
    }

    fn is_sendable(&self, family: u8) -> bool {
        self.line(family).sendable
    }

    fn kind(&self, family: u8) -> Kind {
        self.line(family).kind
    }

    fn may_be_made(&self, family: u8) -> bool {
        self.line(family).makeable
    }

    fn grants(&self, owner: u64, family: u8, first: u64, second: u64, of_first: u64) -> bool {
        let granted = self.line(family).granted;
        granted.covers(owner, first, second, of_first)
    }
}
