// The classes of packets as words, for a script that asks for them.
ghost use Rattle.std.specs.Prelude.{◌≡◌, IfSome, length};
ghost use Rattle.packet.specs.Class.{says_class};
ghost use Rattle.packet.specs.Packet.{class_number};

use super::page::Page;
use packet::Class;

impl<'a, R: Print> Page<'a, R> {
    // The word of a class, behind a blank, once classes are shown.
    pub fn class(&mut self, class: Class)
        ensures { length self.new.run.now ≡ length self.old.run.now }
    {
        if self.classes {
            self.word(letters(class));
        }
    }
}

fn letters(class: Class) -> &'static [u8] {
    match class {
        Class::Error => b" error",
        Class::Reply => b" reply",
        Class::Event => b" event",
        Class::SentEvent => b" sent-event",
        Class::Generic => b" generic",
        Class::SentGeneric => b" sent-generic",
    }
}

// The class of a number that `From<Class> for u8` of `packet` gives. It stays a number in the marks of
// `poll_for_events`, which C reads. A function, and no `TryFrom` in `packet`: only programs read a
// class back.
pub fn class_of(number: u64) -> Option<Class>
    ensures { IfSome result (λ c. class_number (says_class c) ≡ number) }
{
    match number {
        0 => Some(Class::Error),
        1 => Some(Class::Reply),
        2 => Some(Class::Event),
        3 => Some(Class::SentEvent),
        4 => Some(Class::Generic),
        5 => Some(Class::SentGeneric),
        _ => None,
    }
}
