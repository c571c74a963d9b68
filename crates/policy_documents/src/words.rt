// The words of a policy's document for places and types.
ghost use Rattle.std.specs.Prelude.{◌≡◌, option_map};
ghost use Rattle.spec_messages.specs.PolicyDocument.{location_of, sort_of};
ghost use Rattle.policy_documents.specs.Words.{location_view, sort_view};

/// Where in a message an element stands (`IeLocation` of TS 29.573).
#[derive(Clone, Copy, Debug, PartialEq, Eq, Drop)]
pub enum IeLoc {
    /// A variable of the path, or a pair of the query.
    UriParam,
    /// A header.
    Header,
    /// A node of the body.
    Body,
    /// A binary part of a multipart body, which covers nothing here.
    MultipartBinary,
}

/// The type of an element, by which a policy says what is encrypted (`IeType` of TS 29.573).
#[derive(Clone, Copy, Debug, PartialEq, Eq, Drop)]
pub enum IeType {
    /// An identity of a subscriber.
    Ueid,
    /// Where a subscriber is.
    Location,
    /// Cryptographic keys.
    KeyMaterial,
    /// Authentication vectors and the like.
    AuthenticationMaterial,
    /// Tokens that authorize.
    AuthorizationToken,
    /// Any other type.
    Other,
    /// What is never a secret by its kind.
    Nonsensitive,
}

impl IeLoc {
    ghost use Rattle.spec_messages.specs.PolicyDocument.{location_text};

    /// The word of the document, as `URI_PARAM`.
    pub fn as_str(self) -> &'static str
        ensures { result.now ≡ location_text (location_view self) }
    {
        match self {
            IeLoc::UriParam => "URI_PARAM",
            IeLoc::Header => "HEADER",
            IeLoc::Body => "BODY",
            IeLoc::MultipartBinary => "MULTIPART_BINARY",
        }
    }

    /// The place that a word means, or `None` exactly where it is no such word.
    pub fn of_word(word: &str) -> Option<IeLoc>
        ensures { option_map location_view result ≡ location_of word.now }
    {
        match word {
            "URI_PARAM" => Some(IeLoc::UriParam),
            "HEADER" => Some(IeLoc::Header),
            "BODY" => Some(IeLoc::Body),
            "MULTIPART_BINARY" => Some(IeLoc::MultipartBinary),
            _ => None,
        }
    }
}

impl IeType {
    ghost use Rattle.spec_messages.specs.PolicyDocument.{sort_text};
    ghost use Rattle.spec_messages.specs.Policy.{same_sort};

    /// All types, in the order in which a document lists them.
    pub const ALL: [IeType; 7] = [
        IeType::Ueid,
        IeType::Location,
        IeType::KeyMaterial,
        IeType::AuthenticationMaterial,
        IeType::AuthorizationToken,
        IeType::Other,
        IeType::Nonsensitive,
    ];

    /// The word of the document, as `UEID`.
    pub fn as_str(self) -> &'static str
        ensures { result.now ≡ sort_text (sort_view self) }
    {
        match self {
            IeType::Ueid => "UEID",
            IeType::Location => "LOCATION",
            IeType::KeyMaterial => "KEY_MATERIAL",
            IeType::AuthenticationMaterial => "AUTHENTICATION_MATERIAL",
            IeType::AuthorizationToken => "AUTHORIZATION_TOKEN",
            IeType::Other => "OTHER",
            IeType::Nonsensitive => "NONSENSITIVE",
        }
    }

    /// The type that a word means, or `None` exactly where it is no such word.
    pub fn of_word(word: &str) -> Option<IeType>
        ensures { option_map sort_view result ≡ sort_of word.now }
    {
        match word {
            "UEID" => Some(IeType::Ueid),
            "LOCATION" => Some(IeType::Location),
            "KEY_MATERIAL" => Some(IeType::KeyMaterial),
            "AUTHENTICATION_MATERIAL" => Some(IeType::AuthenticationMaterial),
            "AUTHORIZATION_TOKEN" => Some(IeType::AuthorizationToken),
            "OTHER" => Some(IeType::Other),
            "NONSENSITIVE" => Some(IeType::Nonsensitive),
            _ => None,
        }
    }

    /// Whether two types are one.
    pub fn is_same(self, other: IeType) -> bool
        ensures { result ≡ same_sort (sort_view self) (sort_view other) }
    {
        self == other
    }
}
