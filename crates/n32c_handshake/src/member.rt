ghost use Rattle.std.specs.Prelude.{◌≡◌};
ghost use Rattle.n32c_handshake.specs.Members.{member_name};

/// A member of a document of the handshake.
#[derive(Clone, Copy, Debug, PartialEq, Eq, Drop)]
pub enum HandMember {
    /// `api`
    Api,
    /// `call`
    Call,
    /// `request`
    Request,
    /// `response`
    Response,
    /// `sender`
    Sender,
    /// `supportedSecCapabilityList`
    Capabilities,
    /// `selectedSecCapability`
    Capability,
    /// `ipxProviderSecInfoList`
    Providers,
    /// `jweCipherSuiteList`
    Suites,
    /// `selectedJweCipherSuite`
    Suite,
    /// `n32fContextId`
    Context,
    /// `plmn`
    Plmn,
    /// `protectionPolicyInfo`
    Policy,
    /// `selProtectionPolicyInfo`
    SelectedPolicy,
}

impl HandMember {
    /// Its name.
    pub fn name(self) -> &'static str
        ensures { result.now ≡ member_name self }
    {
        match self {
            HandMember::Api => "api",
            HandMember::Call => "call",
            HandMember::Request => "request",
            HandMember::Response => "response",
            HandMember::Sender => "sender",
            HandMember::Capabilities => "supportedSecCapabilityList",
            HandMember::Capability => "selectedSecCapability",
            HandMember::Providers => "ipxProviderSecInfoList",
            HandMember::Suites => "jweCipherSuiteList",
            HandMember::Suite => "selectedJweCipherSuite",
            HandMember::Context => "n32fContextId",
            HandMember::Plmn => "plmn",
            HandMember::Policy => "protectionPolicyInfo",
            HandMember::SelectedPolicy => "selProtectionPolicyInfo",
        }
    }
}
