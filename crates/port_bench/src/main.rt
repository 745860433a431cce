//! Raises blocks and receives them at the port of one source, so that `bench/ports.py` can count what one costs.
//!
//! Two words: the length of each block, 20 to 4,096 bytes, and how many blocks there are. The answer is how many are
//! acknowledged.
#![tactic(auto)]

ghost use Rattle.std.specs.Prelude.{◌≤◌, length};

use apei_base::{Bus, BusFault, Region, Space, u32_at};
use fw_port::{SourceLayout, SourcePort};
use std::rt::Env;
use std::{env, io};

const AREA: u64 = 0x1000_0000;

const STATUS: Region = Region {
    space: Space::Memory,
    address: 0x7f00_0000,
    width: 64,
};

// The number of this word after the program's name, and 0 where there is none.
fn number(rt: &(impl Env + AllocGlobal), index: usize) -> u64 {
    match env::args(rt) {
        Ok(mut words) => words
            .nth(index)
            .and_then(|word| word.parse::<u64>().ok())
            .unwrap_or(0),
        Err(_) => 0,
    }
}

// Receives the block that stands, as a receiver does: the status, the header, the rest, and the clear.
fn receive(port: &mut SourcePort, image: &mut [u8]) -> Result<(), BusFault>
    requires { 20 ≤ length image.old }
{
    let address = port.read(&STATUS)?;
    let (header, rest) = image.split_at_mut(20);
    port.copy(address, 0, header)?;
    port.copy(address, 20, rest)?;
    port.write(&Region::memory(address, 32), 0)
}

// Raises a block and receives it, so often.
fn blocks(port: &mut SourcePort, block: &[u8], image: &mut [u8], times: u32)
    requires { 20 ≤ length image.old }
{
    for _ in 0..times {
        if block.len() >= 20 && u32_at(block, 0) != 0 && port.raised() < 2_000_000 {
            let _ = port.raise(block);
        }
        let _ = receive(port, image);
    }
}

fn main(rt: HostRuntime) -> io::Result<()> {
    let length = number(&rt, 1).clamp(20, 4096) as usize;
    let times = number(&rt, 2).min(1_000_000) as u32;
    let layout = SourceLayout {
        status: STATUS,
        area: AREA,
        room: 4096,
        ack: None,
    };
    let mut port = SourcePort::new(rt.alloc(), layout)?;
    let block = [0x12; 4096];
    let mut image = [0; 4096];
    blocks(&mut port, &block[..length], &mut image[..length], times);
    println!(rt; "{} acknowledged", port.acknowledged())
}
