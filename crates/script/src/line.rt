// What a line says.
use super::{Call, Command, Leaf, Line, Op, Unread, digits, kinds, lists, names, words};
use names::{CallName, CommandName, LeafName, Name};
use sequence::SequenceNumber;
use text::Span;

// Of a line as it was found. Its digits and its kinds are gone then.
pub fn parse(line: Line, input: &mut [u8]) -> Result<Op, Unread> {
    match line {
        Line::Kept(line) => kept(line, input),
        Line::Long => Err(Unread::Long),
        Line::Remark => Ok(Op::Nothing),
    }
}

fn kept(line: Span, input: &mut [u8]) -> Result<Op, Unread> {
    if let [] | [b'#', ..] = line.of(input) {
        return Ok(Op::Nothing);
    }
    let word = words::name(line, input);
    let name = names::read(word.of(input));
    if is_long(name, line) {
        return Err(Unread::Long);
    }
    named(name.ok_or(Unread::Word(1))?, words::rest(line, word), input)
}

// The most bytes of a line, newline included, of any command but two.
const LINE: usize = 132096;

fn is_long(name: Option<Name>, line: Span) -> bool {
    match name {
        Some(Name::Expect | Name::Command(CommandName::Restore)) => false,
        _ => LINE <= line.length(),
    }
}

// A name, and what stands behind it if it isn't alone.
fn named(name: Name, rest: Option<Span>, input: &mut [u8]) -> Result<Op, Unread> {
    match name {
        Name::Expect => Ok(Op::Expect(rest.unwrap_or(Span::EMPTY))),
        Name::Command(name) => Ok(Op::Command(command(name, rest, input)?)),
    }
}

fn command(name: CommandName, rest: Option<Span>, input: &mut [u8]) -> Result<Command, Unread> {
    match name {
        CommandName::Stop => words::alone(rest, Command::Stop),
        CommandName::Classes => words::fixed(b"on", words::some(rest)?.of(input), Command::Classes),
        CommandName::New => new(rest, input),
        CommandName::State => state(rest, input),
        CommandName::Save => words::alone(rest, Command::Save),
        CommandName::Restore => {
            Ok(Command::Restore(digits::read(input, rest, digits::SAVEPOINT)?))
        }
        CommandName::Leaf(name) => Ok(Command::Leaf(leaf(name, rest, input)?)),
        CommandName::Call(name) => Ok(Command::Call(call(name, rest, input)?)),
    }
}

// The rooms of a connection where the line names none.
const NEW: Command = Command::New {
    requests: 65536,
    store: 4194304,
    order: octets::LITTLE,
};

fn new(rest: Option<Span>, input: &[u8]) -> Result<Command, Unread> {
    match rest {
        None => Ok(NEW),
        Some(rest) => lists::rooms(rest.of(input)),
    }
}

fn state(rest: Option<Span>, input: &[u8]) -> Result<Command, Unread> {
    match rest {
        None => Ok(Command::State { full: false }),
        Some(rest) => words::fixed(b"full", rest.of(input), Command::State { full: true }),
    }
}

fn leaf(name: LeafName, rest: Option<Span>, input: &mut [u8]) -> Result<Leaf, Unread> {
    match name {
        LeafName::Reader => words::alone(rest, Leaf::Reader),
        LeafName::Room => words::alone(rest, Leaf::Room),
        LeafName::Fill => Ok(Leaf::Fill(digits::read(input, rest, digits::BYTES)?)),
        LeafName::Advance => Ok(Leaf::Advance(number(rest, input)? as usize)),
        LeafName::Hello => words::alone(rest, Leaf::Hello),
        LeafName::HelloFill => Ok(Leaf::HelloFill(digits::read(input, rest, digits::BYTES)?)),
        LeafName::HelloAdvance => Ok(Leaf::HelloAdvance(number(rest, input)? as usize)),
        LeafName::Ids => {
            let (base, mask) = pair(rest, input)?;
            Ok(Leaf::Ids { base, mask })
        }
        LeafName::Generate => words::alone(rest, Leaf::Generate),
        LeafName::Range => {
            let (start, count) = pair(rest, input)?;
            Ok(Leaf::Range { start, count })
        }
    }
}

fn call(name: CallName, rest: Option<Span>, input: &mut [u8]) -> Result<Call, Unread> {
    match name {
        CallName::Send => lists::send(words::some(rest)?.of(input)),
        CallName::SendAll => Ok(Call::SendAll(kinds::read(input, rest)?)),
        CallName::Fds => fds_of(rest, input),
        CallName::Intake => Ok(Call::Intake(digits::read(input, rest, digits::BYTES)?)),
        CallName::FeedAll => Ok(Call::FeedAll(digits::read(input, rest, digits::BYTES)?)),
        CallName::Feed => Ok(Call::Feed(digits::read(input, rest, digits::BYTES)?)),
        CallName::FeedIn => Ok(Call::FeedIn(digits::read(input, rest, digits::BYTES)?)),
        CallName::Discard => lists::discard(words::some(rest)?.of(input)),
        CallName::PollReplyOrError => Ok(Call::PollReplyOrError(sequence(rest, input)?)),
        CallName::PollCheck => Ok(Call::PollCheck(sequence(rest, input)?)),
        CallName::PollReply => Ok(Call::PollReply(sequence(rest, input)?)),
        CallName::PollEvent => words::alone(rest, Call::PollEvent),
        CallName::Drain => words::alone(rest, Call::Drain),
        CallName::Prepare => Ok(Call::Prepare(sequence(rest, input)?)),
    }
}

fn number(rest: Option<Span>, input: &[u8]) -> Result<u64, Unread> {
    lists::number(words::some(rest)?.of(input))
}

fn sequence(rest: Option<Span>, input: &[u8]) -> Result<SequenceNumber, Unread> {
    Ok(SequenceNumber(number(rest, input)?))
}

fn pair(rest: Option<Span>, input: &[u8]) -> Result<(u32, u32), Unread> {
    lists::pair(words::some(rest)?.of(input))
}

// They are read once more where they are used.
fn fds_of(rest: Option<Span>, input: &[u8]) -> Result<Call, Unread> {
    match rest {
        None => Ok(Call::Fds(Span::EMPTY)),
        Some(rest) => {
            let _ = lists::fds(rest.of(input), &mut [])?;
            Ok(Call::Fds(rest))
        }
    }
}
