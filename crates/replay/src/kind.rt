// The kinds of cases, by the function that is called.

// In the order of the list.
#[derive(Clone, Copy, Debug, PartialEq, Eq)]
pub enum Kind {
    Mul,
    Due,
    Expiry,
    Key,
    Ckb,
    Sha256,
    Read,
    Update,
    First,
    Pick,
    Append,
    Walk,
}

impl Kind {
    // The kind whose name begins with a letter.
    pub fn named(letter: u8) -> Option<Kind> {
        match letter {
            b'm' => Some(Kind::Mul),
            b'd' => Some(Kind::Due),
            b'e' => Some(Kind::Expiry),
            b'k' => Some(Kind::Key),
            b'c' => Some(Kind::Ckb),
            b's' => Some(Kind::Sha256),
            b'r' => Some(Kind::Read),
            b'u' => Some(Kind::Update),
            b'f' => Some(Kind::First),
            b'p' => Some(Kind::Pick),
            b'a' => Some(Kind::Append),
            b'w' => Some(Kind::Walk),
            _ => None,
        }
    }
}
