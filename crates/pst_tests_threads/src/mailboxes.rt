ghost use Rattle.std.specs.Prelude.{◌≡◌, ◌<◌};

use pst_post::{BookSeat, LaneSeat, MOST_LANES, Post};
use std::alloc::{AllocError, Global};
use std::test::Fail;
use std::thread;

// How many numbers pass each way.
const NUMBERS: u32 = 10_000;

// How often a thread looks at a word before it gives up.
const TURNS: u32 = 10_000_000;

#[test]
fn one_action_goes_there_and_back(rt: HostRuntime) -> Result<(), Fail> {
    let (post, mut book) = Post::new(rt.alloc(), 2)?;
    assert_eq!(rt; post.lanes(), 2);
    book.show_width();
    let mut first = post.deal(&mut book, 0);
    let second = post.deal(&mut book, 1);
    assert_eq!(rt; (first.lane(), second.lane()), (0, 1));
    assert!(rt; post.post(&mut book, 0, 5));
    assert!(rt; !post.post(&mut book, 0, 6));
    let act = post.fetch(&mut first).ok_or("nothing to fetch")?;
    assert_eq!(rt; act, 5);
    assert!(rt; !post.collect(&mut book, 0));
    post.hand_back(&mut first);
    assert_eq!(rt; post.fetch(&mut first), None);
    assert!(rt; post.collect(&mut book, 0));
    assert!(rt; post.post(&mut book, 0, 6));
    post.gather(&mut book, first);
    post.gather(&mut book, second);
    let mut left = [None; MOST_LANES];
    left[0] = Some(6);
    assert_eq!(rt; post.close(book), left);
    Ok(())
}

// Posts to lane 0 once its word is empty. False: it stayed full.
fn send(post: &Post, seat: &mut BookSeat, number: u32) -> bool
    requires table { seat.old.table ≡ post.now }
    requires lane { 0 < post.now.words }
    ensures { seat.new.table ≡ seat.old.table }
{
    for _ in 0..TURNS {
        if post.post(seat, 0, number) {
            return true;
        }
        thread::yield_now();
    }
    false
}

// Fetches what is posted, and hands it back. None: nothing was posted.
fn receive(post: &Post, seat: &mut LaneSeat) -> Option<u32>
    requires table { seat.old.table ≡ post.now }
    requires idle { seat.old.fetched ≡ seat.old.finished }
    ensures table { seat.new.table ≡ seat.old.table }
    ensures idle { seat.new.fetched ≡ seat.new.finished }
{
    for _ in 0..TURNS {
        if let Some(number) = post.fetch(seat) {
            post.hand_back(seat);
            return Some(number);
        }
        thread::yield_now();
    }
    None
}

// Sends each number, and receives one back. The numbers that came.
fn ask(
    alloc: Global,
    there: &Post,
    mut book: BookSeat,
    back: &Post,
    mut lane: LaneSeat,
) -> Result<Vec<u32>, AllocError>
    requires book { (book.table ≡ there.now) × (0 < there.now.words) }
    requires lane { (lane.table ≡ back.now) × (lane.fetched ≡ lane.finished) }
{
    let mut came = Vec::new(alloc);
    for number in 0..NUMBERS {
        if !send(there, &mut book, number) {
            break;
        }
        let Some(number) = receive(back, &mut lane) else {
            break;
        };
        came.push(number)?;
    }
    Ok(came)
}

// Receives each number, and sends it back. The numbers that came.
fn answer(
    alloc: Global,
    there: &Post,
    mut lane: LaneSeat,
    back: &Post,
    mut book: BookSeat,
) -> Result<Vec<u32>, AllocError>
    requires lane { (lane.table ≡ there.now) × (lane.fetched ≡ lane.finished) }
    requires book { (book.table ≡ back.now) × (0 < back.now.words) }
{
    let mut came = Vec::new(alloc);
    for _ in 0..NUMBERS {
        let Some(number) = receive(there, &mut lane) else {
            break;
        };
        came.push(number)?;
        if !send(back, &mut book, number) {
            break;
        }
    }
    Ok(came)
}

#[test]
fn numbers_pass_each_way_in_order(rt: HostRuntime) -> Result<(), Fail> {
    let alloc = rt.alloc();
    let (there, mut there_book) = Post::new(alloc, 1)?;
    let there_lane = there.deal(&mut there_book, 0);
    let (back, mut back_book) = Post::new(alloc, 1)?;
    let back_lane = back.deal(&mut back_book, 0);
    let (answered, asked) = thread::join(
        &rt,
        || answer(alloc, &there, there_lane, &back, back_book),
        || ask(alloc, &there, there_book, &back, back_lane),
    );
    let all: Vec<u32> = (0..NUMBERS).collect(alloc)?;
    assert_eq!(rt; answered?.as_slice(), all.as_slice());
    assert_eq!(rt; asked?.as_slice(), all.as_slice());
    Ok(())
}

fn moves<T: Send>(_value: &T) {}

fn is_shared<T: Sync>(_value: &T) {}

// What it shows is shown when it is proved.
#[test]
fn mailboxes_and_seats_cross_threads(rt: HostRuntime) -> Result<(), Fail> {
    let (post, mut book) = Post::new(rt.alloc(), 1)?;
    let lane = post.deal(&mut book, 0);
    moves(&post);
    is_shared(&post);
    moves(&book);
    moves(&lane);
    Ok(())
}
