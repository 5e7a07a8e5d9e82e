// Inside: what the program `values` writes, as values that print themselves, a blank before each part.
#![tactic(auto)]

use refusal::Refusal;
use std::fmt;

// What a call answered: the value that it gave, or the number of its refusal.
#[derive(Drop)]
pub struct Answer<T>(pub Result<T, Refusal>);

impl<T: fmt::Display + Drop> fmt::Display for Answer<T> {
    fn fmt<W: fmt::Write>(&self, f: &mut fmt::Formatter<W>) -> fmt::Result {
        match &self.0 {
            Ok(value) => write!(f, "{value}"),
            Err(refusal) => write!(f, " refused {}", refusal.number()),
        }
    }
}

// Each number.
#[derive(Drop)]
pub struct Numbers<const N: usize>(pub [u64; N]);

impl<const N: usize> fmt::Display for Numbers<N> {
    fn fmt<W: fmt::Write>(&self, f: &mut fmt::Formatter<W>) -> fmt::Result {
        for n in &self.0 {
            write!(f, " {n}")?;
        }
        Ok(())
    }
}

// The bytes in hex, in one word.
#[derive(Drop)]
pub struct Hex<'a>(pub &'a [u8]);

impl<'a> fmt::Display for Hex<'a> {
    fn fmt<W: fmt::Write>(&self, f: &mut fmt::Formatter<W>) -> fmt::Result {
        write!(f, " ")?;
        for x in self.0 {
            write!(f, "{x:02x}")?;
        }
        Ok(())
    }
}
