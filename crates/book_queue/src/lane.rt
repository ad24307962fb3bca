// What is known of the streams' queues without a walk through the pool.
ghost use Rattle.std.specs.Prelude.{◌≡◌, ◌+◌, ◌-◌, ◌<◌, ◌≤◌, ◌^◌, length, map};
ghost use Rattle.book_queue.specs.Views.{IsOldestBelow, changed, grown, lane_at, refilled, sealed_to, shrunk};

use basics::StreamNo;

/// The queue of a stream, by its counts.
#[derive(Clone, Copy, Debug, PartialEq, Eq)]
pub struct Lane {
    /// How many records are queued, and how many of them are sealed.
    pub queued: u32,
    pub sealed: u32,
    /// The sequence of the first.
    pub front: Option<u64>,
    /// A queued record is sealed where its sequence is below this one.
    pub behind: u64,
}

/// A record stands behind a queue.
pub fn grow(lanes: &mut Vec<Lane>, stream: StreamNo, seq: u64)
    requires within { stream < length lanes.old.items }
    requires room { (lane_at lanes.old.items stream).queued < 2 ^ 32 - 1 }
    ensures { lanes.new.items ≡ changed stream (grown seq) lanes.old.items }
{
    let lane = &mut lanes[stream as usize];
    lane.queued += 1;
    lane.front = Some(lane.front.unwrap_or(seq));
}

/// A queue is sealed; all sequences are below this one.
pub fn seal(lanes: &mut Vec<Lane>, stream: StreamNo, next: u64)
    requires { stream < length lanes.old.items }
    ensures { lanes.new.items ≡ changed stream (sealed_to next) lanes.old.items }
{
    let lane = &mut lanes[stream as usize];
    lane.sealed = lane.queued;
    lane.behind = next;
}

fn seal_lane(lane: &mut Lane, next: u64)
    ensures { lane.new ≡ sealed_to next lane.old }
{
    lane.sealed = lane.queued;
    lane.behind = next;
}

/// All queues are sealed.
pub fn seal_all(lanes: &mut Vec<Lane>, next: u64)
    ensures { lanes.new.items ≡ map (sealed_to next) lanes.old.items }
{
    for index in 0..lanes.len() {
        seal_lane(&mut lanes[index], next);
    }
}

/// So many sealed records of a queue are taken out, and this is its front.
pub fn shrink(lanes: &mut Vec<Lane>, stream: StreamNo, count: u32, front: Option<u64>)
    requires within { stream < length lanes.old.items }
    requires queued { count ≤ (lane_at lanes.old.items stream).queued }
    requires sealed { count ≤ (lane_at lanes.old.items stream).sealed }
    ensures { lanes.new.items ≡ changed stream (shrunk count front) lanes.old.items }
{
    let lane = &mut lanes[stream as usize];
    lane.queued -= count;
    lane.sealed -= count;
    lane.front = front;
}

/// So many records are put back into a queue, sealed, and this is its front.
pub fn refill(lanes: &mut Vec<Lane>, stream: StreamNo, count: u32, front: Option<u64>)
    requires within { stream < length lanes.old.items }
    requires queued { (lane_at lanes.old.items stream).queued + count < 2 ^ 32 }
    requires sealed { (lane_at lanes.old.items stream).sealed + count < 2 ^ 32 }
    ensures { lanes.new.items ≡ changed stream (refilled count front) lanes.old.items }
{
    let lane = &mut lanes[stream as usize];
    lane.queued += count;
    lane.sealed += count;
    lane.front = front;
}

// The older of a lane that was found and the next one, by their first sealed records.
fn older(lanes: &[Lane], found: Option<StreamNo>, stream: StreamNo) -> Option<StreamNo>
    requires within { stream < length lanes.now }
    requires found { IsOldestBelow lanes.now stream found }
    ensures { IsOldestBelow lanes.now (stream + 1) result }
{
    let lane = lanes[stream as usize];
    if lane.sealed == 0 {
        return found;
    }
    match found {
        Some(before) if lanes[before as usize].front.unwrap_or(0) <= lane.front.unwrap_or(0) => {
            found
        }
        _ => Some(stream),
    }
}

/// The stream whose first sealed record is oldest, by the counts of so many.
pub fn oldest_sealed(lanes: &[Lane], streams: u32) -> Option<StreamNo>
    requires { length lanes.now ≡ streams }
    ensures { IsOldestBelow lanes.now streams result }
{
    let mut found = None;
    for stream in 0..streams {
        found = older(lanes, found, stream);
    }
    found
}
