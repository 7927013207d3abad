// The bodies of acts: numbers, and a realm's acts, each a PUBLISH whose text has 200 octets.
use crate::fault::BenchFault;
use realm_acts::{Act, Id, Shared};
use std::alloc::{AllocError, Global};
use test_machines::Number;
use wamp_messages::{Memory, read};

// A PUBLISH whose text has 200 octets, but for its one argument.
const FRONT: &str = "[16,1,{\"acknowledge\":true},\"com.example.topic\",[\"";

const ARGUMENT: [u8; 148] = [b'x'; 148];

const BACK: &str = "\"]]";

/// Makes bodies that share nothing with one another.
pub trait Source<B> {
    /// The next body.
    fn make(&self, alloc: Global) -> Result<B, BenchFault>;
}

/// Makes numbers.
#[derive(Clone, Copy)]
pub struct Numbers;

impl Source<Number> for Numbers {
    fn make(&self, _alloc: Global) -> Result<Number, BenchFault> {
        Ok(Number::new(1))
    }
}

/// Makes acts that say the message of this text.
#[derive(Clone, Copy)]
pub struct Acts<'a> {
    pub text: &'a [u8],
}

impl<'a> Source<Act> for Acts<'a> {
    fn make(&self, alloc: Global) -> Result<Act, BenchFault> {
        act_of(alloc, self.text)
    }
}

/// The text of the PUBLISH.
pub fn text_of(alloc: Global) -> Result<Vec<u8>, AllocError> {
    let mut text = Vec::from_slice(alloc, FRONT.as_bytes())?;
    text.extend_from_slice(&ARGUMENT)?;
    text.extend_from_slice(BACK.as_bytes())?;
    Ok(text)
}

// What was read is held once from here on. It is of any type here: a function that knows of a message's kinds would follow each of them.
fn held<T: Drop>(alloc: Global, read: Result<T, Memory>) -> Result<Shared<T>, BenchFault> {
    let Ok(value) = read else {
        return Err(BenchFault::Memory);
    };
    match Shared::new(alloc, value) {
        Ok(shared) => Ok(shared),
        Err(left) => {
            drop(left);
            Err(BenchFault::Memory)
        }
    }
}

/// The act that says the message of this text.
pub fn act_of(alloc: Global, text: &[u8]) -> Result<Act, BenchFault> {
    let draw = Id::new(1).ok_or(BenchFault::Text)?;
    let read = held(alloc, read(alloc, text))?;
    Ok(Act::Said { draw, read })
}
