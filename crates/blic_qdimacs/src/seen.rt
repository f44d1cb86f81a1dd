// What was seen of a word, byte by byte: no byte of it is kept.
ghost use Rattle.std.specs.Prelude.{◌≡◌, ◌≤◌, ◌+◌, ◌*◌, min};
ghost use Rattle.blic_qdimacs.specs.Machine.{first_seen, seen_with, header_with};

use blic_model::Quant;

/// What was seen of a word. A value above `VALUE_CAP` stands as `VALUE_CAP`.
#[derive(Clone, Copy, Debug, PartialEq, Eq)]
pub enum Seen {
    Nothing,
    Letter(Quant),
    P,
    C,
    Cn,
    Cnf,
    Minus,
    Digits { negative: bool, value: u32 },
    Other,
}

/// The least value that is too large.
pub const VALUE_CAP: u32 = 2_147_483_648;

// What is seen of the first byte.
fn first_byte(byte: u8) -> Seen
    ensures { result ≡ first_seen byte }
{
    match byte {
        b'e' => Seen::Letter(Quant::Exists),
        b'a' => Seen::Letter(Quant::Forall),
        b'p' => Seen::P,
        b'c' => Seen::C,
        b'-' => Seen::Minus,
        b'0'..=b'9' => Seen::Digits {
            negative: false,
            value: u32::from(byte - b'0'),
        },
        _ => Seen::Other,
    }
}

// The value with one digit more.
fn with_digit(value: u32, digit: u8) -> u32
    requires { digit ≤ 9 }
    ensures { result ≡ min (10 * value + digit) 2147483648 }
{
    (10 * u64::from(value) + u64::from(digit)).min(u64::from(VALUE_CAP)) as u32
}

impl Seen {
    /// What is seen with one byte more.
    pub fn with(self, byte: u8) -> Seen
        ensures { result ≡ seen_with self byte }
    {
        match self {
            Seen::Nothing => first_byte(byte),
            Seen::C if byte == b'n' => Seen::Cn,
            Seen::Cn if byte == b'f' => Seen::Cnf,
            Seen::Minus if byte.is_ascii_digit() => Seen::Digits {
                negative: true,
                value: u32::from(byte - b'0'),
            },
            Seen::Digits { negative, value } if byte.is_ascii_digit() => Seen::Digits {
                negative,
                value: with_digit(value, byte - b'0'),
            },
            _ => Seen::Other,
        }
    }
}

/// The words of the problem line so far.
#[derive(Clone, Copy, Debug, PartialEq, Eq)]
pub enum HeaderSeen {
    Empty,
    P,
    Cnf,
    Vars(u32),
    Both { vars: u32, clauses: u32 },
    NotProblem,
    Bad,
}

impl HeaderSeen {
    /// The words with one word more.
    pub fn with(self, word: Seen) -> HeaderSeen
        ensures { result ≡ header_with self word }
    {
        match (self, word) {
            (HeaderSeen::Empty, Seen::P) => HeaderSeen::P,
            (HeaderSeen::Empty, _) => HeaderSeen::NotProblem,
            (HeaderSeen::NotProblem, _) => HeaderSeen::NotProblem,
            (HeaderSeen::P, Seen::Cnf) => HeaderSeen::Cnf,
            (
                HeaderSeen::Cnf,
                Seen::Digits {
                    negative: false,
                    value,
                },
            ) => HeaderSeen::Vars(value),
            (
                HeaderSeen::Vars(vars),
                Seen::Digits {
                    negative: false,
                    value,
                },
            ) => HeaderSeen::Both {
                vars,
                clauses: value,
            },
            _ => HeaderSeen::Bad,
        }
    }
}
