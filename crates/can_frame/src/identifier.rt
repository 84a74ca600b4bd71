ghost use Rattle.std.specs.Prelude.{◌≡◌, ◌<◌, ◌^◌, Some, IfSome};
ghost use Rattle.can_frame.specs.declared.identifier.Ident.{Ident};
ghost use Rattle.can_frame.specs.Identifier.{IsIdentifier, Spells, identifier_number, identifier_of, service_of, message_of};
ghost use Rattle.can_frame.specs.Kinds.{is_service, is_anonymous, is_response};

/// What a transfer is: a broadcast, a broadcast by a node that has no ID yet, or one direction of a
/// service call.
#[derive(Clone, Copy, Debug, PartialEq, Eq)]
pub enum Kind {
    Message,
    Anonymous,
    Request,
    Response,
}

impl Kind {
    /// Whether it is one direction of a service call.
    pub fn is_service(self) -> bool
        ensures { result ≡ is_service self }
    {
        match self {
            Kind::Message | Kind::Anonymous => false,
            Kind::Request | Kind::Response => true,
        }
    }

    /// Whether it is a broadcast by a node that has no ID yet.
    pub fn is_anonymous(self) -> bool
        ensures { result ≡ is_anonymous self }
    {
        match self {
            Kind::Anonymous => true,
            Kind::Message | Kind::Request | Kind::Response => false,
        }
    }

    /// Whether it is the answer to a service call.
    pub fn is_response(self) -> bool
        ensures { result ≡ is_response self }
    {
        match self {
            Kind::Message | Kind::Anonymous | Kind::Request => false,
            Kind::Response => true,
        }
    }
}

/// The fields of a 29-bit identifier.
#[derive(Clone, Copy, Debug, PartialEq, Eq)]
pub struct Ident {
    /// 0, the highest, to 31.
    pub priority: u8,

    pub kind: Kind,

    /// The type ID: 16 bits of a message, 2 bits of an anonymous one, 8 bits of a service.
    pub number: u16,

    /// 1 to 127, or 0 in an anonymous message.
    pub source: u8,

    /// 1 to 127 in a service, else 0.
    pub dest: u8,

    /// 14 bits that keep anonymous messages apart, else 0.
    pub discriminator: u16,
}

impl Ident {
    /// The fields of an identifier below 2^29, or `None` for a service frame whose source or
    /// destination is 0.
    #[tactic(auto, unfolding(crate::specs::Identifier::identifier_of))]
    pub fn read(id: u32) -> Option<Ident>
        requires { id < 2 ^ 29 }
        ensures fields { result ≡ identifier_of id }
        ensures found { IfSome result (λ ident. Spells ident id) }
        ensures only { (ident : Ident) → Spells ident id → result ≡ Some ident }
    {
        if id / 128 % 2 == 1 {
            Ident::read_service(id)
        } else {
            Some(Ident::read_message(id))
        }
    }

    fn read_service(id: u32) -> Option<Ident>
        requires { id < 2 ^ 29 }
        ensures { result ≡ service_of id }
    {
        let source = (id % 128) as u8;
        let dest = (id / 256 % 128) as u8;
        if source == 0 || dest == 0 {
            return None;
        }
        Some(Ident {
            priority: (id / 16777216) as u8,
            kind: if id / 32768 % 2 == 1 {
                Kind::Request
            } else {
                Kind::Response
            },
            number: (id / 65536 % 256) as u16,
            source,
            dest,
            discriminator: 0,
        })
    }

    fn read_message(id: u32) -> Ident
        requires { id < 2 ^ 29 }
        ensures { result ≡ message_of id }
    {
        let priority = (id / 16777216) as u8;
        let source = (id % 128) as u8;
        if source == 0 {
            return Ident {
                priority,
                kind: Kind::Anonymous,
                number: (id / 256 % 4) as u16,
                source: 0,
                dest: 0,
                discriminator: (id / 1024 % 16384) as u16,
            };
        }
        Ident {
            priority,
            kind: Kind::Message,
            number: (id / 256 % 65536) as u16,
            source,
            dest: 0,
            discriminator: 0,
        }
    }

    /// The identifier of fields that are in their ranges.
    pub fn write(self) -> u32
        requires { IsIdentifier self }
        ensures number { result ≡ identifier_number self }
        ensures range { result < 2 ^ 29 }
    {
        let low = match self.kind {
            Kind::Message => 256 * self.number as u32 + self.source as u32,
            Kind::Anonymous => 1024 * self.discriminator as u32 + 256 * self.number as u32,
            Kind::Request => {
                65536 * self.number as u32
                    + 32768
                    + 256 * self.dest as u32
                    + 128
                    + self.source as u32
            }
            Kind::Response => {
                65536 * self.number as u32 + 256 * self.dest as u32 + 128 + self.source as u32
            }
        };
        16777216 * self.priority as u32 + low
    }
}
