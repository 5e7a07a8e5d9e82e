// The refusals of the engine, by name and by number.
//
// Whatever a caller hands in, a call answers what it gives or one refusal, and a refusal changes
// neither the state nor one byte lent. Each call that can refuse answers a `Result` whose error is
// `Refusal`; a call that hands back a part gives an empty one, and a call beside it the number. In
// `specs/`, `Answer` is what every such result says in the rules' own terms, the values given or the
// number of the refusal, and `refuse` puts refusals in order.
#![tactic(auto)]

ghost use Rattle.std.specs.Prelude.{◌≡◌};
ghost use Rattle.refusal.specs.Numbers.{number_of};

#[derive(Clone, Copy)]
pub enum Refusal {
    // 1: a packet under 32 bytes.
    ShortPacket,
    // 2: a packet over 65,536 bytes, one over the packet buffer, or a setup over its buffer.
    LongPacket,
    // 3: a full number would pass 2^63 - 1, on send or intake.
    NumberEnd,
    // 4: a reply to a request with descriptors claims more than wait.
    FewDescriptors,
    // 5: no room for a request, a packet or a descriptor.
    NoRoom,
    // 6: a request with a reply must be sent first.
    SyncFirst,
    // 7: more bytes claimed than remain.
    OverAdvance,
    // 8: the caller's output is too small.
    OutShort,
    // 9: a length out of range, or an unsound state.
    BadRoom,
    // 10: an id mask of 0.
    ZeroMask,
    // 11: no id left, or a range without ids: (0, 1), or a count of 0.
    IdsExhausted,
    // 12: a range whose last id is over 2^32 - 1.
    BadRange,
    // 13: a byte order other than `l` and `B`.
    BadOrder,
    // 14: a wrong first byte, or inner lengths that pass the end of the bytes given.
    BadContent,
    // 15: a setup asked for too early.
    Incomplete,
    // 16: an authorization name or data over 65,535 bytes.
    LongAuth,
    // 18: a savepoint asked for while a descriptor is inside. No refusal has the number 17.
    HasDescriptors,
    // 19: bytes that are no savepoint.
    BadSavepoint,
    // 20: a packet whose number is above the last written.
    Ahead,
}

impl Refusal {
    // The number of a refusal, as programs print it and other languages see it. A method, not a
    // `From`: it is asked for by its name wherever a refusal is told.
    pub fn number(self) -> u8
        ensures { result ≡ number_of self }
    {
        match self {
            Refusal::ShortPacket => 1,
            Refusal::LongPacket => 2,
            Refusal::NumberEnd => 3,
            Refusal::FewDescriptors => 4,
            Refusal::NoRoom => 5,
            Refusal::SyncFirst => 6,
            Refusal::OverAdvance => 7,
            Refusal::OutShort => 8,
            Refusal::BadRoom => 9,
            Refusal::ZeroMask => 10,
            Refusal::IdsExhausted => 11,
            Refusal::BadRange => 12,
            Refusal::BadOrder => 13,
            Refusal::BadContent => 14,
            Refusal::Incomplete => 15,
            Refusal::LongAuth => 16,
            Refusal::HasDescriptors => 18,
            Refusal::BadSavepoint => 19,
            Refusal::Ahead => 20,
        }
    }
}
