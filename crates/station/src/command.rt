// The commands.
ghost use Rattle.std.specs.Prelude.{◌≡◌};

use crate::digests::Typed;
use crate::line::Reason;
use aead::{Block, Context, Joined};
use permutation::State;
use std::fmt;
use std::str::FromStr;

// Which engine computes.
#[derive(Clone, Copy)]
pub enum Kind {
    Word,
    Column,
}

impl fmt::Display for Kind {
    fn fmt<W: fmt::Write>(&self, f: &mut fmt::Formatter<W>) -> fmt::Result {
        f.write_str(match self {
            Kind::Word => "word",
            Kind::Column => "column",
        })
    }
}

impl FromStr for Kind {
    type Err = Reason;

    fn from_str(word: &str) -> Result<Kind, Reason> {
        match word {
            "word" => Ok(Kind::Word),
            "column" => Ok(Kind::Column),
            _ => Err(Reason::UnknownWord),
        }
    }
}

// No quota, one, or one over another.
#[derive(Clone, Copy)]
pub enum Quotas {
    Off,
    One(u32),
    Two(u32, u32),
}

// A text to seal or a sealed text to open, with an output of `room` bytes.
#[derive(Drop)]
pub struct AeadJob {
    pub key: Block,
    pub nonce: Block,
    pub front: Vec<u8>,
    pub back: Vec<u8>,
    pub text: Vec<u8>,
    pub room: usize,
}

impl AeadJob {
    // What the text is sealed under.
    pub fn context(&self) -> Context<'_>
        ensures key_and_nonce { (result.key.now ≡ self.now.key) × (result.nonce.now ≡ self.now.nonce) }
        ensures both_parts { (result.data.front.now ≡ self.now.front.items) × (result.data.back.now ≡ self.now.back.items) }
    {
        Context {
            key: &self.key,
            nonce: &self.nonce,
            data: Joined {
                front: self.front.as_slice(),
                back: self.back.as_slice(),
            },
        }
    }
}

// A message to digest in one call, with an output of `room` bytes.
#[derive(Drop)]
pub struct DigestJob {
    pub digest: Typed,
    pub message: Vec<u8>,
    pub room: usize,
}

// A command that needs the engine, so that no session may be open.
#[derive(Drop)]
pub enum BenchCommand {
    Engine(Kind),
    Quota(Quotas),
    Tell,
    Permute(usize, State),
    SealText(AeadJob),
    OpenText(AeadJob),
    Digest(DigestJob),
}

// A command to an open session.
#[derive(Drop)]
pub enum SessionCommand {
    Absorb(Vec<u8>),
    Finish,
    Squeeze(usize),
    End,
}

#[derive(Drop)]
pub enum Command {
    Bench(BenchCommand),
    // Opens a session.
    Start(Typed),
    Session(SessionCommand),
}
