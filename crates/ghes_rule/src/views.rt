//! What a slot holds, and what each seat knows. No value of a view is made: views exist in proofs alone.
use cper_block::Malformed;
use ghes_call::Packet;

/// A packet in a slot, with the pass that pushed it and the number of its claim of the slot.
///
/// Source: own choice.
#[derive(Drop)]
pub struct Cell {
    pub packet: Packet,
    pub pass: u64,
    pub turn: u64,
}

/// What a view keeps of a packet: the position of its source, its number, why it is malformed, and its bytes.
pub struct PacketView {
    pub source: u16,
    pub seq: u32,
    pub reason: Option<Malformed>,
    pub bytes: [u8; 0],
}

/// A claim of a slot, named by the number of claims of that slot that ended before it.
pub struct Turn {
    pub slot: u64,
    pub turn: u64,
}

/// A packet that was pushed, by which pass and under which claim.
pub struct Pushed {
    pub pass: u64,
    pub slot: u64,
    pub turn: u64,
    pub packet: PacketView,
}

/// What a pass is about.
pub enum Stage {
    Idle,
    /// The slot, and the number of the claim.
    Holding(u64, u64),
    /// The slot, and what the swap of the head gave: 0 for none, or 1 more than a slot.
    Swapped(u64, u64),
}

/// What a pass knows.
pub struct PassView {
    /// From 0 on.
    pub number: u64,
    /// How many bytes each packet has room for.
    pub room: u64,
    /// How many steps on a word it has made.
    pub steps: u64,
    pub stage: Stage,
    /// What it pushed, oldest first.
    pub mine: [Pushed; 0],
    /// Its fatal block, or none.
    pub fatal: Option<PacketView>,
    /// The claims that it made, oldest first.
    pub claims: [Turn; 0],
    /// The claims of others that it found running, oldest first.
    pub found: [Turn; 0],
    /// How many claims of each slot had ended when the pass was let out.
    pub since: [u64; 0],
    /// What its loads of the panic word answered, oldest first.
    pub loads: [bool; 0],
}

/// What the decoder has in hand: nothing, or a slot and the number of its claim.
pub enum Hand {
    Bare,
    Full(u64, u64),
}

/// What the decoder knows.
pub struct WorkView {
    pub room: u64,
    /// Where the rest of the detached chain begins: 0 for its end, or 1 more than a slot.
    pub cursor: u64,
    /// The slots of the detached chain that were walked and not taken, oldest push first.
    pub walked: [u64; 0],
    pub held: Hand,
    /// What was taken, oldest first.
    pub taken: [Pushed; 0],
    /// How many claims of each slot are known to have ended.
    pub ended: [u64; 0],
    /// The ended passes by number, and none for a pass that is out.
    pub passes: [Option<PassView>; 0],
    /// What its loads of the panic word answered, oldest first.
    pub loads: [bool; 0],
    /// How many swaps of the head found nothing pending.
    pub empties: u64,
    /// How many swaps of the head detached a chain.
    pub chains: u64,
    /// How many loads of a link found it unset.
    pub unsets: u64,
}

/// What a seat knows.
pub enum View {
    OfPass(PassView),
    OfWork(WorkView),
    /// A pass that was taken in.
    Spent,
}
