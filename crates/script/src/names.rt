// The names of the commands.

#[derive(Clone, Copy)]
pub(crate) enum Name {
    Expect,
    Command(CommandName),
}

#[derive(Clone, Copy)]
pub(crate) enum CommandName {
    Stop,
    Classes,
    New,
    State,
    Save,
    Restore,
    Leaf(LeafName),
    Call(CallName),
}

#[derive(Clone, Copy)]
pub(crate) enum LeafName {
    Reader,
    Room,
    Fill,
    Advance,
    Hello,
    HelloFill,
    HelloAdvance,
    Ids,
    Generate,
    Range,
}

#[derive(Clone, Copy)]
pub(crate) enum CallName {
    Send,
    SendAll,
    Fds,
    Intake,
    FeedAll,
    Feed,
    FeedIn,
    Discard,
    PollReplyOrError,
    PollCheck,
    PollReply,
    PollEvent,
    Drain,
    Prepare,
}

// The command that a word names.
pub(crate) fn read(word: &[u8]) -> Option<Name> {
    match word {
        b"expect" => Some(Name::Expect),
        _ => Some(Name::Command(command(word)?)),
    }
}

fn command(word: &[u8]) -> Option<CommandName> {
    match word {
        b"stop" => Some(CommandName::Stop),
        b"classes" => Some(CommandName::Classes),
        b"new" => Some(CommandName::New),
        b"state" => Some(CommandName::State),
        b"save" => Some(CommandName::Save),
        b"restore" => Some(CommandName::Restore),
        _ => inner(word),
    }
}

fn inner(word: &[u8]) -> Option<CommandName> {
    match call(word) {
        Some(name) => Some(CommandName::Call(name)),
        None => Some(CommandName::Leaf(leaf(word)?)),
    }
}

fn leaf(word: &[u8]) -> Option<LeafName> {
    match word {
        b"reader" => Some(LeafName::Reader),
        b"room" => Some(LeafName::Room),
        b"fill" => Some(LeafName::Fill),
        b"advance" => Some(LeafName::Advance),
        b"hello" => Some(LeafName::Hello),
        b"hfill" => Some(LeafName::HelloFill),
        b"hadvance" => Some(LeafName::HelloAdvance),
        b"ids" => Some(LeafName::Ids),
        b"gen" => Some(LeafName::Generate),
        b"range" => Some(LeafName::Range),
        _ => None,
    }
}

fn call(word: &[u8]) -> Option<CallName> {
    match word {
        b"send" => Some(CallName::Send),
        b"sendall" => Some(CallName::SendAll),
        b"fds" => Some(CallName::Fds),
        b"intake" => Some(CallName::Intake),
        b"feedall" => Some(CallName::FeedAll),
        b"feed" => Some(CallName::Feed),
        b"feedin" => Some(CallName::FeedIn),
        b"discard" => Some(CallName::Discard),
        b"poll_reply_or_error" => Some(CallName::PollReplyOrError),
        b"poll_check" => Some(CallName::PollCheck),
        b"poll_reply" => Some(CallName::PollReply),
        b"poll_event" => Some(CallName::PollEvent),
        b"drain" => Some(CallName::Drain),
        b"prepare" => Some(CallName::Prepare),
        _ => None,
    }
}
