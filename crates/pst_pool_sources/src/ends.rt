//! The references of one pool that may be sources.
ghost use Rattle.std.specs.Prelude.{◌≡◌, ◌<◌, ◌≤◌, ◌++◌, [], true, false, OnOk, OnErr, length, is_some, vec_capacity, if◌then◌else◌};
ghost use Rattle.std.specs.List.{list_any, insert};
ghost use Rattle.pst_scen.specs.declared.act.Flow.{Flow as the_flow};
ghost use Rattle.pst_scen.specs.declared.act.Flow.TheVariants as flow;
ghost use Rattle.pst_legal.specs.Supplied.{is_source_for};
ghost use Rattle.pst_ties.specs.Tieds.{same_end};
ghost use Rattle.pst_pool_sources.specs.Offers.{row_ends, row_room, end_if, but_last, takes, without, put_back};
ghost use Rattle.pst_pool_sources.specs.Places.{AreRising};

use crate::places::place_of;
use pst_base::NoMemory;
use pst_scen::Flow;
use pst_ties::End;
use std::alloc::Global;

/// The references of one pool that may be sources, each list by action and reference.
#[derive(Drop)]
pub struct SourceEnds {
    /// The outputs of buffers.
    pub buffers: Vec<End>,
    /// The inputs of streams that are free, which are sources of their outputs.
    pub stream_inputs: Vec<End>,
    /// The outputs of streams that are free.
    pub stream_outputs: Vec<End>,
    /// The outputs of states.
    pub writers: Vec<End>,
    /// The outputs of states that aren't the previous writer of another.
    pub free_writers: Vec<End>,
    /// Whether a writer replaces the first object.
    pub begun: bool,
}

// Takes a reference out. Gives its place.
fn take_out(ends: &mut Vec<End>, end: End) -> Option<usize>
    requires { AreRising ends.old.items }
    ensures without { ends.new.items ≡ without end ends.old.items }
    ensures back { ends.old.items ≡ put_back result end ends.new.items }
    ensures found { is_some result ≡ list_any (same_end end) ends.old.items }
    ensures room { vec_capacity ends.new ≡ vec_capacity ends.old }
{
    let place = place_of(ends.as_slice(), end)?;
    ends.remove(place);
    Some(place)
}

// Puts a reference in again, behind so many others.
fn put_in(ends: &mut Vec<End>, place: usize, end: End)
    requires { length ends.old.items < vec_capacity ends.old }
    ensures items { ends.new.items ≡ insert ends.old.items place end }
    ensures room { vec_capacity ends.old ≤ vec_capacity ends.new }
{
    let place = place.min(ends.len());
    match ends.insert(place, end) {
        Ok(()) => {}
        Err(_) => unreachable!(),
    }
}

impl SourceEnds {
    pub(crate) fn new(alloc: Global) -> SourceEnds
        ensures ends { (need : the_flow) → row_ends need result ≡ [] }
        ensures begun { result.begun ≡ false }
    {
        SourceEnds {
            buffers: Vec::new(alloc),
            stream_inputs: Vec::new(alloc),
            stream_outputs: Vec::new(alloc),
            writers: Vec::new(alloc),
            free_writers: Vec::new(alloc),
            begun: false,
        }
    }

    // Adds the output of a state.
    fn add_writer(&mut self, end: End) -> Result<(), NoMemory>
        ensures ok { OnOk result ((need : the_flow) → row_ends need self.new ≡ row_ends need self.old ++ end_if (is_source_for need flow.StateOut) end) }
        ensures err { OnErr result ((need : the_flow) → row_ends need self.new ≡ row_ends need self.old) }
        ensures room { (need : the_flow) → row_room need self.old ≤ row_room need self.new }
        ensures begun { self.new.begun ≡ self.old.begun }
    {
        self.writers.reserve(1)?;
        self.free_writers.push(end)?;
        match self.writers.push(end) {
            Ok(()) => Ok(()),
            Err(_) => unreachable!(),
        }
    }

    /// Adds a reference of a kind.
    pub(crate) fn add(&mut self, flow: Flow, end: End) -> Result<(), NoMemory>
        ensures ok { OnOk result ((need : the_flow) → row_ends need self.new ≡ row_ends need self.old ++ end_if (is_source_for need flow) end) }
        ensures err { OnErr result ((need : the_flow) → row_ends need self.new ≡ row_ends need self.old) }
        ensures room { (need : the_flow) → row_room need self.old ≤ row_room need self.new }
        ensures begun { self.new.begun ≡ self.old.begun }
    {
        match flow {
            Flow::BufferIn => Ok(()),
            Flow::BufferOut => {
                self.buffers.push(end)?;
                Ok(())
            }
            Flow::StreamIn => {
                self.stream_inputs.push(end)?;
                Ok(())
            }
            Flow::StreamOut => {
                self.stream_outputs.push(end)?;
                Ok(())
            }
            Flow::StateIn => Ok(()),
            Flow::StateOut => self.add_writer(end),
        }
    }

    /// Takes the last reference of a kind away.
    pub(crate) fn take_last(&mut self, flow: Flow)
        ensures ends { (need : the_flow) → row_ends need self.new ≡ but_last (if is_source_for need flow then 1 else 0) (row_ends need self.old) }
        ensures room { (need : the_flow) → row_room need self.new ≡ row_room need self.old }
        ensures begun { self.new.begun ≡ self.old.begun }
    {
        match flow {
            Flow::BufferIn => {}
            Flow::BufferOut => {
                self.buffers.pop();
            }
            Flow::StreamIn => {
                self.stream_inputs.pop();
            }
            Flow::StreamOut => {
                self.stream_outputs.pop();
            }
            Flow::StateIn => {}
            Flow::StateOut => {
                self.writers.pop();
                self.free_writers.pop();
            }
        }
    }

    /// Takes a reference of a kind out of those that may still be linked. Gives its place.
    pub(crate) fn take(&mut self, flow: Flow, end: End) -> Option<usize>
        requires { (need : the_flow) → AreRising (row_ends need self.old) }
        ensures without { (need : the_flow) → row_ends need self.new ≡ (if takes need flow then without end (row_ends need self.old) else row_ends need self.old) }
        ensures back { (need : the_flow) → row_ends need self.old ≡ (if takes need flow then put_back result end (row_ends need self.new) else row_ends need self.new) }
        ensures found { (need : the_flow) → takes need flow ≡ true → is_some result ≡ list_any (same_end end) (row_ends need self.old) }
        ensures room { (need : the_flow) → row_room need self.new ≡ row_room need self.old }
        ensures begun { self.new.begun ≡ self.old.begun }
    {
        match flow {
            Flow::BufferIn => None,
            Flow::BufferOut => None,
            Flow::StreamIn => take_out(&mut self.stream_inputs, end),
            Flow::StreamOut => take_out(&mut self.stream_outputs, end),
            Flow::StateIn => None,
            Flow::StateOut => take_out(&mut self.free_writers, end),
        }
    }

    /// Puts a reference of a kind at its place among those that may still be linked.
    pub(crate) fn put(&mut self, flow: Flow, place: usize, end: End)
        requires { (need : the_flow) → takes need flow ≡ true → length (row_ends need self.old) < row_room need self.old }
        ensures ends { (need : the_flow) → row_ends need self.new ≡ (if takes need flow then insert (row_ends need self.old) place end else row_ends need self.old) }
        ensures room { (need : the_flow) → row_room need self.old ≤ row_room need self.new }
        ensures begun { self.new.begun ≡ self.old.begun }
    {
        match flow {
            Flow::BufferIn => {}
            Flow::BufferOut => {}
            Flow::StreamIn => put_in(&mut self.stream_inputs, place, end),
            Flow::StreamOut => put_in(&mut self.stream_outputs, place, end),
            Flow::StateIn => {}
            Flow::StateOut => put_in(&mut self.free_writers, place, end),
        }
    }

    /// The references that may be the source of a need of a kind.
    pub(crate) fn of_need(&self, need: Flow) -> &[End]
        ensures { result.now ≡ row_ends need self.now }
    {
        match need {
            Flow::BufferIn => self.buffers.as_slice(),
            Flow::BufferOut => &[],
            Flow::StreamIn => self.stream_outputs.as_slice(),
            Flow::StreamOut => self.stream_inputs.as_slice(),
            Flow::StateIn => self.writers.as_slice(),
            Flow::StateOut => self.free_writers.as_slice(),
        }
    }
}
