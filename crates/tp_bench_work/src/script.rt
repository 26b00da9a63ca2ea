//! A script of peers who write, send messages that are lost, doubled or late, crash and come again, played as
//! `textpeer simulate` plays it.

use crate::author::text_of;
use crate::chance::Chance;
use crate::digest::Digest;
use crate::size::Size;
use std::alloc::Global;
use tp_simulate::simulate;

// How many peers there are, and how many events after they joined.
const PEERS: usize = 5;

const EVENTS: usize = 12_000;

// A script as it is written, and what is known of its messages.
#[derive(Drop)]
struct Script {
    text: String,
    chance: Chance,
    sent: usize,
    actors: usize,
}

impl Script {
    fn peer(&mut self) -> usize {
        self.chance.below(PEERS)
    }

    // Writes an actor that nobody had, and a newline.
    fn actor(&mut self) -> anyhow::Result<()> {
        self.actors = self.actors.saturating_add(1);
        let actor = self.actors as u64;
        writeln!(self.text, "{actor:032x}")?;
        Ok(())
    }

    fn start(&mut self) -> anyhow::Result<()> {
        self.text.push_str("start ")?;
        self.actor()
    }

    // A few characters typed near the start, or as many deleted.
    fn edit(&mut self) -> anyhow::Result<()> {
        let (peer, at) = (self.peer(), self.chance.below(40));
        let del = self.chance.below(8) / 5;
        let count = self.chance.between(1, 6);
        let alloc = *self.text.allocator();
        write!(self.text, "edit {peer} {at} {del} ")?;
        let typed = text_of(alloc, &mut self.chance, count)?;
        for c in typed.chars() {
            self.text.push(if c == '\n' { ' ' } else { c })?;
        }
        self.text.push('\n')?;
        Ok(())
    }

    // A message from one peer to another.
    fn send(&mut self) -> anyhow::Result<()> {
        let one = self.peer();
        let other = one.saturating_add(self.chance.between(1, PEERS - 1)) % PEERS;
        self.sent = self.sent.saturating_add(1);
        writeln!(self.text, "send {one} {other}")?;
        Ok(())
    }

    // One of the latest messages comes, to whomever.
    fn deliver(&mut self) -> anyhow::Result<()> {
        let back = self.chance.below(6);
        let (number, peer) = (self.sent.saturating_sub(back), self.peer());
        writeln!(self.text, "deliver {number} {peer}")?;
        Ok(())
    }

    fn merge(&mut self) -> anyhow::Result<()> {
        let (one, other) = (self.peer(), self.peer());
        writeln!(self.text, "merge {one} {other}")?;
        Ok(())
    }

    fn crash(&mut self) -> anyhow::Result<()> {
        let peer = self.peer();
        write!(self.text, "crash {peer} ")?;
        self.actor()
    }

    fn read(&mut self) -> anyhow::Result<()> {
        let peer = self.peer();
        writeln!(self.text, "read {peer}")?;
        Ok(())
    }

    // The next event.
    fn event(&mut self) -> anyhow::Result<()> {
        match self.chance.below(400) {
            0 => self.crash(),
            1 | 2 | 3 | 4 => self.read(),
            5 | 6 | 7 | 8 => self.merge(),
            9..=40 => self.send(),
            41..=80 => self.deliver(),
            _ => self.edit(),
        }
    }
}

// A script of a number of events.
fn script_of(alloc: Global, size: Size) -> anyhow::Result<String> {
    let mut script = Script {
        text: String::new(alloc),
        chance: Chance::new(size.seed),
        sent: 0,
        actors: 0,
    };
    for _ in 0..PEERS {
        script.start()?;
    }
    for _ in 0..size.share(EVENTS) {
        script.event()?;
    }
    Ok(script.text)
}

/// Writes the script, and plays it.
pub fn run(alloc: Global, size: Size, digest: &mut Digest) -> anyhow::Result<()> {
    let script = script_of(alloc, size)?;
    let mut reader = script.as_bytes();
    let mut printed = Vec::new(alloc);
    simulate(alloc, &mut reader, &mut printed)?;
    digest.bytes(printed.as_slice());
    Ok(())
}
