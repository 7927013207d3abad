// What is asked on standard input, and how the nodes learn of it.
use serve_connections::Lobby;
use serve_lines::{Command, Commands};
use std::io::{Eprint, ErrorKind, Read};
use std::sync::Arc;
use std::sync::atomic::{AtomicU64, Ordering};

/// Where the nodes are asked for their status.
#[derive(Drop)]
pub(crate) struct Desk {
    pub asked: Arc<AtomicU64>,
    pub lobbies: Vec<Arc<Lobby>>,
}

impl Desk {
    // Does what a line asks for. A line that is no command is answered by one that names the commands.
    fn obey<R: Eprint>(&self, rt: &R, command: Command) {
        match command {
            Command::Status => {
                self.asked.fetch_add(1, Ordering::SeqCst);
                for lobby in &self.lobbies {
                    lobby.wake();
                }
            }
            Command::Other => {
                let _ = eprintln!(rt;
                    "a line of standard input is `status` and nothing else: a line of each node is written then"
                );
            }
        }
    }

    // Does what these octets ask for.
    fn take<R: Eprint>(&self, rt: &R, commands: &mut Commands, octets: &[u8]) {
        for octet in octets {
            if let Some(command) = commands.take(*octet) {
                self.obey(rt, command);
            }
        }
    }

    /// Does what the lines of the input ask for, to its end or to a read that fails.
    pub fn run<R: Eprint, I: Read>(&self, rt: &R, reader: &mut I) {
        let mut octets = [0u8; 512];
        let mut commands = Commands::new();
        for _ in 0..u64::MAX {
            match reader.read(&mut octets) {
                Ok(0) => return,
                Ok(count) => self.take(rt, &mut commands, &octets[..count]),
                Err(error) if error.kind() == ErrorKind::Interrupted => {}
                Err(_) => return,
            }
        }
    }
}
