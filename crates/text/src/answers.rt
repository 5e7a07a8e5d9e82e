// What calls answer, as it is written.
ghost use Rattle.std.specs.Prelude.{◌≡◌, length};

use super::page::Page;
use super::span::Span;
use packet::Class;
use refusal::Refusal;

// The words of answers.
#[derive(Clone, Copy)]
pub enum Word {
    Ok,
    None,
    Again,
    NoReply,
    True,
    False,
    Refused,
    Event,
    Sent,
    Packets,
    Accepted,
    Last,
    Bytes,
    Room,
    Packet,
    Reply,
}

impl Word {
    // Its letters, behind a blank.
    fn letters(self) -> &'static [u8] {
        match self {
            Word::Ok => b" ok",
            Word::None => b" none",
            Word::Again => b" again",
            Word::NoReply => b" noreply",
            Word::True => b" true",
            Word::False => b" false",
            Word::Refused => b" refused",
            Word::Event => b" event",
            Word::Sent => b" sent",
            Word::Packets => b" packets",
            Word::Accepted => b" accepted",
            Word::Last => b" last",
            Word::Bytes => b" bytes",
            Word::Room => b" room",
            Word::Packet => b" packet",
            Word::Reply => b" reply",
        }
    }
}

// A word and its number; another word with its number; the refusal that stopped it; a packet, as
// bytes of the run; and a packet's class, which is written once classes are shown. Each part that
// is there has a blank before it.
#[derive(Clone, Copy, Default)]
pub struct Answer {
    pub word: Option<Word>,
    pub count: Option<u64>,
    pub also: Option<(Word, u64)>,
    pub stop: Option<Refusal>,
    pub packet: Option<Span>,
    pub class: Option<Class>,
}

pub fn say(word: Word) -> Answer {
    Answer {
        word: Some(word),
        ..Answer::default()
    }
}

pub fn count(word: Option<Word>, n: u64) -> Answer {
    Answer {
        word,
        count: Some(n),
        ..Answer::default()
    }
}

pub fn refusal(refusal: Refusal) -> Answer {
    Answer {
        stop: Some(refusal),
        ..Answer::default()
    }
}

pub fn both(word: Option<Word>, n: u64, also: Word, m: u64, stop: Option<Refusal>) -> Answer {
    Answer {
        also: Some((also, m)),
        stop,
        ..count(word, n)
    }
}

pub fn also(word: Option<Word>, also: Word, m: u64) -> Answer {
    Answer {
        word,
        also: Some((also, m)),
        ..Answer::default()
    }
}

pub fn shown(word: Option<Word>, from: usize, len: usize) -> Answer {
    Answer {
        word,
        packet: Some(Span::at(from, len)),
        ..Answer::default()
    }
}

pub fn classed(word: Word, class: Class) -> Answer {
    Answer {
        class: Some(class),
        ..say(word)
    }
}

pub fn whether(yes: bool) -> Answer {
    say(if yes { Word::True } else { Word::False })
}

// The number of the refusal, where there is one, behind its word.
fn stopped(stop: Option<Refusal>) -> Option<(Word, u64)> {
    let refusal = stop?;
    Some((Word::Refused, refusal.number() as u64))
}

impl<'a, R: Print> Page<'a, R> {
    // An answer.
    pub fn tell(&mut self, answer: Answer)
        ensures { length self.new.run.now ≡ length self.old.run.now }
    {
        if let Some(word) = answer.word {
            self.word(word.letters());
        }
        if let Some(n) = answer.count {
            self.counted(b" ", n);
        }
        self.item(answer.also);
        self.item(stopped(answer.stop));
        if let Some(packet) = answer.packet {
            self.packet(packet);
        }
        if let Some(class) = answer.class {
            self.class(class);
        }
    }

    fn item(&mut self, item: Option<(Word, u64)>)
        ensures { length self.new.run.now ≡ length self.old.run.now }
    {
        if let Some((word, n)) = item {
            self.word(word.letters());
            self.counted(b" ", n);
        }
    }
}
