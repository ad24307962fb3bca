// What a queue hands out after pushes, seals and batches that come back.
use basics::{Bytes, NoMemory};
use book_queue::BookQueue;
use json_write::put_number;
use outside::SeqLineList;
use std::alloc::Global;
use std::test::Fail;

// What is done with a queue.
#[derive(Clone, Copy)]
enum Act {
    // A record of so many bytes.
    Push(u32, u64, usize),
    Unpark,
    Seal(u32),
    SealAll,
    HandOut,
    TakeBack(u64),
    TakeAllBack,
    LetGo(u64),
}

fn push(
    alloc: Global,
    queue: &mut BookQueue,
    stream: u32,
    seq: u64,
    len: usize,
) -> Result<&'static [u8], NoMemory> {
    let line = Bytes::from_vec(vec![in alloc; b'x'; len]?);
    if queue.is_parked() || stream >= queue.streams() || seq < queue.next() || seq == u64::MAX {
        return Ok(b"? ");
    }
    Ok(answer(queue.push(stream, seq, line)))
}

fn answer(done: bool) -> &'static [u8] {
    if done { b"+ " } else { b"- " }
}

fn put_lines(said: &mut Bytes, number: u64, lines: &SeqLineList) -> Result<(), NoMemory> {
    put_number(said, number)?;
    said.extend(b":")?;
    for line in lines.as_slice() {
        put_number(said, line.seq)?;
        said.extend(b",")?;
    }
    said.extend(b" ")
}

// Hands out a batch, and writes its number and the sequences of its records, which the queue has too.
fn hand_out(alloc: Global, queue: &mut BookQueue, said: &mut Bytes) -> Result<(), NoMemory> {
    let Some(stream) = queue.ready() else {
        return said.extend(b"none ");
    };
    let handed = queue.hand_out(alloc, stream)?;
    put_lines(said, handed.number, &handed.lines)?;
    if queue.stream_of(handed.number) != Some(stream)
        || !queue.has_lines(alloc, handed.number, &handed.lines)?
        || !queue.has_out()
    {
        said.extend(b"? ")?;
    }
    Ok(())
}

fn play(alloc: Global, queue: &mut BookQueue, acts: &[Act]) -> Result<Bytes, NoMemory> {
    let mut said = Bytes::new(alloc);
    for act in acts {
        match *act {
            Act::Push(stream, seq, len) => said.extend(push(alloc, queue, stream, seq, len)?)?,
            Act::Unpark => said.extend(answer(queue.unpark()))?,
            Act::Seal(stream) => {
                if stream < queue.streams() {
                    queue.seal(stream);
                }
            }
            Act::SealAll => queue.seal_all(),
            Act::HandOut => hand_out(alloc, queue, &mut said)?,
            Act::TakeBack(number) => said.extend(answer(queue.take_back(number)))?,
            Act::TakeAllBack => queue.take_all_back(),
            Act::LetGo(number) => said.extend(answer(queue.let_go(number)))?,
        }
    }
    said.extend(answer(queue.has_queued()))?;
    Ok(said)
}

#[test]
fn queues_hand_out_what_is_sealed(rt: HostRuntime) -> Result<(), Fail> {
    for (acts, said) in [
        // A queue of two records is a batch; a state seals the third. The later batch may go first.
        (
            &[
                Act::HandOut,
                Act::Push(0, 0, 1),
                Act::HandOut,
                Act::Push(0, 1, 1),
                Act::Seal(0),
                Act::Push(0, 2, 1),
                Act::Seal(0),
                Act::HandOut,
                Act::HandOut,
                Act::HandOut,
                Act::LetGo(1),
                Act::LetGo(0),
                Act::LetGo(0),
            ][..],
            "none + none + + 0:0,1, 1:2, none + + - - ",
        ),
        // Four slots: the fifth record is parked, and the oldest queue is sealed, not its own. It stays parked while the
        // batch is handed out, and finds room when that is let go.
        (
            &[
                Act::Push(0, 0, 1),
                Act::Push(1, 1, 1),
                Act::Push(2, 2, 1),
                Act::Push(3, 3, 1),
                Act::Push(3, 4, 1),
                Act::HandOut,
                Act::HandOut,
                Act::Unpark,
                Act::HandOut,
                Act::LetGo(0),
                Act::Unpark,
                Act::HandOut,
            ],
            "+ + + + - 0:0, none - 1:1, + + 2:3,4, + ",
        ),
        // The stream whose first sealed record is oldest goes first, though another's record is older.
        (
            &[
                Act::Push(0, 0, 1),
                Act::Push(2, 1, 1),
                Act::Push(1, 2, 1),
                Act::Seal(1),
                Act::Seal(2),
                Act::HandOut,
                Act::HandOut,
                Act::HandOut,
                Act::SealAll,
                Act::HandOut,
            ],
            "+ + + 0:1, 1:2, none 2:0, - ",
        ),
        // A batch that is put back stands sealed at its place, and goes again under a number of its own.
        (
            &[
                Act::Push(0, 0, 1),
                Act::Push(0, 1, 1),
                Act::HandOut,
                Act::Push(0, 2, 1),
                Act::TakeBack(0),
                Act::TakeBack(0),
                Act::HandOut,
                Act::HandOut,
                Act::LetGo(0),
                Act::LetGo(1),
                Act::SealAll,
                Act::HandOut,
            ],
            "+ + 0:0,1, + + - 1:0,1, none - + 2:2, - ",
        ),
        // All batches are put back.
        (
            &[
                Act::Push(0, 0, 1),
                Act::Push(1, 1, 1),
                Act::Push(2, 2, 1),
                Act::SealAll,
                Act::HandOut,
                Act::HandOut,
                Act::HandOut,
                Act::TakeAllBack,
                Act::TakeBack(1),
                Act::HandOut,
                Act::HandOut,
                Act::HandOut,
            ],
            "+ + + 0:0, 1:1, 2:2, - 3:0, 4:1, 5:2, - ",
        ),
        // A record beyond the bytes that are left is parked.
        (
            &[
                Act::Push(0, 0, 60),
                Act::Push(0, 1, 41),
                Act::HandOut,
                Act::LetGo(0),
                Act::Unpark,
                Act::Unpark,
            ],
            "+ - 0:0, + + + + ",
        ),
    ] {
        let mut queue = BookQueue::new(rt.alloc(), 4, 4, 100, 2)?;
        let found = play(rt.alloc(), &mut queue, acts)?;
        assert_eq!(rt; found.as_slice(), said.as_bytes(), "{said}");
    }
    Ok(())
}
