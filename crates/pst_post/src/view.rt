// What seats know. No value of these types is ever made: they stand in contracts and proofs alone.
use std::collections::LinkedList;

/// How far a lane has come with the actions that were posted to it.
pub struct Progress {
    /// The actions that the lane fetched, the first one first.
    pub fetched: LinkedList<u32>,
    /// Those of them that it handed back.
    pub finished: LinkedList<u32>,
}

/// Where the seat of a lane is.
pub enum SeatStatus {
    /// Not dealt yet.
    Undealt,
    /// Dealt, and not gathered.
    Out,
    /// Gathered, with the lane's progress.
    Gathered(Progress),
}

/// What the book's seat knows of one lane.
pub struct Entry {
    /// The actions that were posted to the lane, the first one first.
    pub posted: LinkedList<u32>,
    /// Those of them that a collect found handed back.
    pub ended: LinkedList<u32>,
    /// Where the lane's seat is.
    pub seat: SeatStatus,
    /// How many posts and collects found the lane's word full.
    pub misses: u64,
}

/// What a lane's seat knows.
pub struct LaneView {
    /// The lane's number.
    pub lane: u32,
    /// The actions that the lane fetched, the first one first.
    pub fetched: LinkedList<u32>,
    /// Those of them that it handed back.
    pub finished: LinkedList<u32>,
    /// How many fetches found the lane's word empty.
    pub misses: u64,
}

/// What one seat of the table knows.
pub enum View {
    /// The book's seat: an entry for each lane.
    Book(LinkedList<Entry>),
    /// The seat of a lane.
    Lane(LaneView),
    /// A seat that was gathered.
    Spent,
}
