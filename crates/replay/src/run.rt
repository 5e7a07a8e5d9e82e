// A line of a script, carried out and answered.
use super::checks;
use super::checks::{Checks, Ends};
use calls::{Rooms, Subject};
use model::Connection;
use refusal::Refusal;
use script::{Command, Line, Op, Unread};
use text::{Page, Span};

// What a script works on, how many commands there were, and what is expected of them.
#[derive(Clone, Copy)]
pub(crate) struct State {
    pub(crate) subject: Subject,
    pub(crate) ops: u64,
    pub(crate) checks: Checks,
}

// Before the first line there is a connection as `new` makes it.
pub(crate) fn fresh(rooms: &Rooms<'_>) -> Result<State, Refusal> {
    let connection = connection::new(octets::LITTLE, rooms.requests, rooms.store, rooms.slots)?;
    Ok(State {
        subject: Subject {
            connection,
            leaves: leaves::fresh(octets::LITTLE),
        },
        ops: 0,
        checks: checks::fresh(),
    })
}

// The line of a number.
pub(crate) fn line(
    state: &mut State,
    line: Line,
    number: u64,
    rooms: &mut Rooms<'_>,
    page: &mut Page<'_, impl Print>,
) {
    match parsed(line, rooms, page.run) {
        Ok(Op::Nothing) => return,
        Ok(Op::Expect(wanted)) => expected(&mut state.checks, wanted, number, page),
        Ok(Op::Command(command)) => {
            page.begin();
            name(line, page);
            carried(state, command, rooms, page);
            page.close();
        }
        Err(unread) => {
            page.begin();
            bad(unread, number, page);
            page.close();
        }
    }
    state.ops = state.ops.saturating_add(1);
}

// The program's own store is shorter than the longest that the rules allow: a line that asks for more
// cannot be read here.
fn parsed(line: Line, rooms: &Rooms<'_>, run: &mut [u8]) -> Result<Op, Unread> {
    let op = script::parse(line, run)?;
    match op {
        Op::Command(Command::New { store, .. })
            if rooms.store.len() < store && store <= held::MOST_STORE => { Err(Unread::Word(3)) }
        _ => Ok(op),
    }
}

// An answer begins with the name of its command.
fn name(line: Line, page: &mut Page<'_, impl Print>) {
    if let Line::Kept(line) = line {
        let name = script::name(line, page.run);
        page.copy(name);
    }
}

// A line that cannot be read.
fn bad(unread: Unread, number: u64, page: &mut Page<'_, impl Print>) {
    page.counted(b"bad line ", number);
    match unread {
        Unread::Long => page.word(b" long"),
        Unread::Word(word) => page.counted(b" word ", word),
    }
}

fn expected(checks: &mut Checks, wanted: Span, number: u64, page: &mut Page<'_, impl Print>) {
    let verdict = checks::judge(wanted, page);
    checks::write(verdict, number, page);
    checks::count(checks, verdict);
}

// A command, and the answer behind its name.
fn carried(
    state: &mut State,
    command: Command,
    rooms: &mut Rooms<'_>,
    page: &mut Page<'_, impl Print>,
) {
    let subject = &mut state.subject;
    match command {
        Command::Stop => {
            state.checks.ends = Ends::AtNext;
            page.word(b" ok");
        }
        Command::Classes => {
            page.classes = true;
            page.word(b" ok");
        }
        Command::New {
            requests,
            store,
            order,
        } => opened(subject, open(requests, store, order, rooms), page),
        Command::State { full } => calls::state(subject, full, rooms, page),
        Command::Save => calls::save(subject, rooms, page),
        Command::Restore(saved) => calls::restore(subject, saved, rooms, page),
        Command::Leaf(leaf) => {
            let order = subject.connection.order;
            let answer = leaves::make(&mut subject.leaves, leaf, order, page.run);
            page.tell(answer);
        }
        Command::Call(call) => calls::line(subject, call, rooms, page),
    }
}

fn opened(
    subject: &mut Subject,
    answer: Result<Connection, Refusal>,
    page: &mut Page<'_, impl Print>,
) {
    match answer {
        Ok(connection) => {
            subject.connection = connection;
            page.word(b" ok");
        }
        Err(refusal) => page.tell(text::refusal(refusal)),
    }
}

// A room longer than any that there is has no length that the rules allow.
fn open(k: usize, s: usize, order: u8, rooms: &Rooms<'_>) -> Result<Connection, Refusal> {
    let k = requests::bytes_for(k);
    let requests = rooms.requests.get(..k).ok_or(Refusal::BadRoom)?;
    let store = rooms.store.get(..s).ok_or(Refusal::BadRoom)?;
    connection::new(order, requests, store, rooms.slots)
}
