//! The tags of words.

ghost use Rattle.std.specs.Prelude.{◌≡◌};
ghost use Rattle.host_spec.specs.Tags.{number, tag_of};

/// The type and form of a word, which its lowest byte names.
///
/// The tags of 256-bit numbers have names, and their words mean nothing.
#[derive(Clone, Copy, Debug, PartialEq, Eq)]
pub enum Tag {
    False,
    True,
    Void,
    Error,
    U32,
    I32,
    U64Small,
    I64Small,
    TimepointSmall,
    DurationSmall,
    U128Small,
    I128Small,
    U256Small,
    I256Small,
    SymbolSmall,
    U64Object,
    I64Object,
    TimepointObject,
    DurationObject,
    U128Object,
    I128Object,
    U256Object,
    I256Object,
    BytesObject,
    StringObject,
    SymbolObject,
    VecObject,
    MapObject,
    AddressObject,
    MuxedAddressObject,
}

impl Tag {
    /// The tag with this number, or `None` if no tag has it.
    pub fn from_number(number: u64) -> Option<Tag>
        ensures { result ≡ tag_of number }
    {
        match number {
            0 => Some(Tag::False),
            1 => Some(Tag::True),
            2 => Some(Tag::Void),
            3 => Some(Tag::Error),
            4 => Some(Tag::U32),
            5 => Some(Tag::I32),
            6 => Some(Tag::U64Small),
            7 => Some(Tag::I64Small),
            8 => Some(Tag::TimepointSmall),
            9 => Some(Tag::DurationSmall),
            10 => Some(Tag::U128Small),
            11 => Some(Tag::I128Small),
            12 => Some(Tag::U256Small),
            13 => Some(Tag::I256Small),
            14 => Some(Tag::SymbolSmall),
            64 => Some(Tag::U64Object),
            65 => Some(Tag::I64Object),
            66 => Some(Tag::TimepointObject),
            67 => Some(Tag::DurationObject),
            68 => Some(Tag::U128Object),
            69 => Some(Tag::I128Object),
            70 => Some(Tag::U256Object),
            71 => Some(Tag::I256Object),
            72 => Some(Tag::BytesObject),
            73 => Some(Tag::StringObject),
            74 => Some(Tag::SymbolObject),
            75 => Some(Tag::VecObject),
            76 => Some(Tag::MapObject),
            77 => Some(Tag::AddressObject),
            78 => Some(Tag::MuxedAddressObject),
            _ => None,
        }
    }

    /// The number of the tag.
    pub fn number(self) -> u64
        ensures { result ≡ number self }
    {
        match self {
            Tag::False => 0,
            Tag::True => 1,
            Tag::Void => 2,
            Tag::Error => 3,
            Tag::U32 => 4,
            Tag::I32 => 5,
            Tag::U64Small => 6,
            Tag::I64Small => 7,
            Tag::TimepointSmall => 8,
            Tag::DurationSmall => 9,
            Tag::U128Small => 10,
            Tag::I128Small => 11,
            Tag::U256Small => 12,
            Tag::I256Small => 13,
            Tag::SymbolSmall => 14,
            Tag::U64Object => 64,
            Tag::I64Object => 65,
            Tag::TimepointObject => 66,
            Tag::DurationObject => 67,
            Tag::U128Object => 68,
            Tag::I128Object => 69,
            Tag::U256Object => 70,
            Tag::I256Object => 71,
            Tag::BytesObject => 72,
            Tag::StringObject => 73,
            Tag::SymbolObject => 74,
            Tag::VecObject => 75,
            Tag::MapObject => 76,
            Tag::AddressObject => 77,
            Tag::MuxedAddressObject => 78,
        }
    }
}
