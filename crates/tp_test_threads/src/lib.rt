//! Tests by threads: seats of served peers, sessions over loopback, the program's server and clients.
#![tactic(auto)]

#[cfg(test)]
mod disk;
#[cfg(test)]
mod gate;
#[cfg(test)]
mod hold;
#[cfg(test)]
mod patience;
#[cfg(test)]
mod peers;
#[cfg(test)]
mod program;
#[cfg(test)]
mod room;
#[cfg(test)]
mod runs;
#[cfg(test)]
mod seats;
#[cfg(test)]
mod sessions;
#[cfg(test)]
mod sides;
#[cfg(test)]
mod strangers;
