//! Peers in a ring, or in a row.

use crate::neighbour::{Link, Neighbour};
use anyhow::{anyhow, bail, ensure};
use std::alloc::Global;

/// What passed between peers.
#[derive(Clone, Copy)]
pub struct Traffic {
    /// How many messages.
    pub messages: usize,
    /// How many bytes they had.
    pub bytes: usize,
}

/// Peers, each linked to the next one.
#[derive(Drop)]
pub struct Ring {
    peers: Vec<Neighbour>,
    links: usize,
}

/// After this many rounds of messages something is wrong.
const MOST_ROUNDS: usize = 1_000;

impl Ring {
    /// Peers without changes. The first `links` of them are linked to the next one; the last one's next is the first.
    pub fn new(alloc: Global, peers: u8, links: usize) -> anyhow::Result<Ring> {
        let mut made = Vec::new(alloc);
        for number in 0..peers {
            made.push(Neighbour::new(alloc, number))?;
        }
        Ok(Ring { peers: made, links })
    }

    /// The peer with the number.
    pub fn peer(&mut self, number: usize) -> anyhow::Result<&mut Neighbour> {
        self.peers.get_mut(number).ok_or(anyhow!("no such peer"))
    }

    /// Each peer makes `changes` changes.
    pub fn write(&mut self, changes: usize) -> anyhow::Result<()> {
        for number in 0..self.peers.len() {
            self.peer(number)?.write(changes)?;
        }
        Ok(())
    }

    /// No peer knows anything of its neighbours from now on.
    pub fn part(&mut self) -> anyhow::Result<()> {
        for number in 0..self.peers.len() {
            self.peer(number)?.part();
        }
        Ok(())
    }

    /// Each peer has `changes` changes.
    pub fn expect_counts(&self, changes: usize) -> anyhow::Result<()> {
        for peer in self.peers.as_slice() {
            ensure!(peer.change_count() == changes, "changes are missing");
        }
        Ok(())
    }

    // The number of the peer after another one.
    fn next(&self, number: usize) -> usize {
        number.saturating_add(1) % self.peers.len().max(1)
    }

    // Passes the next message over a link, if there is one.
    fn pass(&mut self, from: usize, to: usize, link: Link) -> anyhow::Result<Option<usize>> {
        match self.peer(from)?.send(link)? {
            Some(bytes) => {
                self.peer(to)?.take(link.back(), &bytes)?;
                Ok(Some(bytes.len()))
            }
            None => Ok(None),
        }
    }

    // Passes the next message between two peers, there and back. Answers what passed.
    fn exchange(&mut self, before: usize, beyond: usize) -> anyhow::Result<Traffic> {
        let mut traffic = Traffic::none();
        traffic.add(self.pass(before, beyond, Link::Behind)?);
        traffic.add(self.pass(beyond, before, Link::Before)?);
        Ok(traffic)
    }

    // Passes the next message over each link, there and back. Answers what passed.
    fn round(&mut self) -> anyhow::Result<Traffic> {
        let mut traffic = Traffic::none();
        for number in 0..self.links {
            let next = self.next(number);
            traffic.join(self.exchange(number, next)?);
        }
        Ok(traffic)
    }

    /// Passes messages over all links until nobody has anything to say.
    pub fn settle(&mut self) -> anyhow::Result<Traffic> {
        let mut total = Traffic::none();
        for _ in 0..MOST_ROUNDS {
            let traffic = self.round()?;
            if traffic.messages == 0 {
                return Ok(total);
            }
            total.join(traffic);
        }
        bail!("there is always something to say")
    }

    // Passes messages between the first peer and another, who haven't met, until neither has anything to say.
    fn settle_first_with(&mut self, number: usize) -> anyhow::Result<Traffic> {
        let mut total = Traffic::none();
        self.peer(0)?.meet();
        for _ in 0..MOST_ROUNDS {
            let traffic = self.exchange(0, number)?;
            if traffic.messages == 0 {
                return Ok(total);
            }
            total.join(traffic);
        }
        bail!("there is always something to say")
    }

    /// Passes messages between the first peer and each other one, one after another, until the two have nothing to say.
    pub fn settle_first(&mut self) -> anyhow::Result<Traffic> {
        let mut total = Traffic::none();
        for number in 1..self.peers.len() {
            total.join(self.settle_first_with(number)?);
        }
        Ok(total)
    }
}

impl Traffic {
    // Nothing.
    fn none() -> Traffic {
        Traffic {
            messages: 0,
            bytes: 0,
        }
    }

    // Counts a message of `bytes` bytes, if there is one.
    fn add(&mut self, bytes: Option<usize>) {
        if let Some(bytes) = bytes {
            self.messages = self.messages.saturating_add(1);
            self.bytes = self.bytes.saturating_add(bytes);
        }
    }

    // Counts what passed besides.
    fn join(&mut self, other: Traffic) {
        self.messages = self.messages.saturating_add(other.messages);
        self.bytes = self.bytes.saturating_add(other.bytes);
    }
}
