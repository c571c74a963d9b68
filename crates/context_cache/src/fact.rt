// What one more record tells of its context.

/// What one more record tells of its context.
#[derive(Clone, Copy, Debug, PartialEq, Eq, Drop)]
pub enum Fact {
    /// Its id was offered.
    Offered,
    /// It was opened.
    Opened,
    /// It has keys that fit the suite that it was opened with.
    Keyed,
    /// A request was sent: its number, its message id and its mapping.
    SentRequest(u32, u64, Option<u32>),
    /// A response was sent: its number, its message id and its mapping.
    SentResponse(u32, u64, Option<u32>),
    /// A request was delivered: its message id and its mapping.
    DeliveredRequest(u64, Option<u32>),
    /// A response was delivered: its message id and its mapping.
    DeliveredResponse(u64, Option<u32>),
    /// It was closed.
    Closed,
    /// Nothing, as keys that don't fit.
    Nothing,
}
