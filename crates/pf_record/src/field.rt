//! The fields of a record.
ghost use Rattle.std.specs.Prelude.{◌≡◌};
ghost use Rattle.pf_record.specs.FieldName.{field_name};

/// A field of a packet's record, in the order in which they stand, or a word that is none of them.
#[derive(Clone, Copy, Debug, PartialEq, Eq)]
pub enum Field {
    Direction,
    Interface,
    Protocol,
    Source,
    Destination,
    Sport,
    Dport,
    Flags,
    Icmptype,
    Code,
    Tos,
    Prio,
    User,
    Group,
    Tag,
    /// A word that is no key, is out of order or is repeated.
    Extra,
}

impl Field {
    /// Its name in lower case.
    pub fn name(self) -> &'static [u8]
        ensures { result.now ≡ field_name self }
    {
        match self {
            Field::Direction => b"direction",
            Field::Interface => b"interface",
            Field::Protocol => b"protocol",
            Field::Source => b"source",
            Field::Destination => b"destination",
            Field::Sport => b"sport",
            Field::Dport => b"dport",
            Field::Flags => b"flags",
            Field::Icmptype => b"icmptype",
            Field::Code => b"code",
            Field::Tos => b"tos",
            Field::Prio => b"prio",
            Field::User => b"user",
            Field::Group => b"group",
            Field::Tag => b"tag",
            Field::Extra => b"extra",
        }
    }
}

/// The first field of a record that is missing or outside its form.
#[derive(Clone, Copy, Debug, PartialEq, Eq)]
pub struct PacketFault(pub Field);
